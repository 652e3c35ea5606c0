ghost use Rattle.js_value.specs.RealmRows as rows;

/// The worked examples of what stands when a program begins.
pub fn worked_realm()
    ensures places { rows.Places }
    ensures inheritance { rows.Inheritance }
    ensures functions { rows.Functions }
    ensures errors { rows.Errors }
    ensures names { rows.GlobalNames }
{}
