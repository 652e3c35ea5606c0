ghost use Rattle.cov_words.specs.Laws.{MapsFile, ExecFile, ExecTurns, NoTurns, OneFile, RunFile, RunExcluding, InstrumentFile, MergeFile, ReportFile, CheckFiles, V8File, OtherName, AsksWithin};

/// What the plain forms ask, for any words.
pub fn plain_words()
    ensures maps_file { MapsFile }
    ensures exec_file { ExecFile }
    ensures exec_turns { ExecTurns }
    ensures no_turns { NoTurns }
    ensures one_file { OneFile }
    ensures run_file { RunFile }
    ensures run_excluding { RunExcluding }
    ensures instrument_file { InstrumentFile }
    ensures merge_file { MergeFile }
    ensures report_file { ReportFile }
    ensures check_files { CheckFiles }
    ensures v8_file { V8File }
    ensures other_name { OtherName }
    ensures asks_within { AsksWithin }
{}
