ghost use Rattle.js_value.specs.HostRows as rows;
ghost use Rattle.js_value.specs.RequiringRows.{Requires};

/// The worked examples of what built-in functions answer.
pub fn worked_host()
    ensures array_calls { rows.ArrayCalls }
    ensures object_calls { rows.ObjectCalls }
    ensures constructor_calls { rows.ConstructorCalls }
    ensures calling { rows.Calling }
    ensures requires_files { Requires }
{}
