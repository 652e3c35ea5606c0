ghost use Rattle.source_map.specs.Rows.{Digits, Numbers, Decoded, Encoded, ReadAs, Traces, Composed, WrittenAs};

/// Does nothing. Its contract is a table of mappings and maps with what they come to.
pub fn worked_maps()
    ensures digits { Digits }
    ensures numbers { Numbers }
    ensures decoded { Decoded }
    ensures encoded { Encoded }
    ensures read { ReadAs }
    ensures traces { Traces }
    ensures composed { Composed }
    ensures written { WrittenAs }
{}
