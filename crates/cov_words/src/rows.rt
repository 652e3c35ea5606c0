ghost use Rattle.cov_words.specs.WorkedWords.{HelpAlone, Maps, Exec, Instruments, Runs, Demos, Merges, Reports, Checks, V8s, NoReading};

/// What words ask for by the definition, worked out: it computes.
pub fn worked_words()
    ensures help_alone { HelpAlone }
    ensures maps { Maps }
    ensures exec { Exec }
    ensures instruments { Instruments }
    ensures runs { Runs }
    ensures demos { Demos }
    ensures merges { Merges }
    ensures reports { Reports }
    ensures checks { Checks }
    ensures v8s { V8s }
    ensures no_reading { NoReading }
{}
