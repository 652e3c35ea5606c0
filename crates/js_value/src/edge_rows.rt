ghost use Rattle.js_value.specs.EdgeRows as rows;

/// The worked examples of calls with `this` and arguments of a wrong kind, none, too many, negative and past the end, and of errors.
pub fn worked_edges()
    ensures array_edges { rows.ArrayEdges }
    ensures object_edges { rows.ObjectEdges }
    ensures constructor_edges { rows.ConstructorEdges }
    ensures errors_made { rows.ErrorsMade }
{}
