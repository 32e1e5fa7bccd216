ghost use Rattle.cells.specs.Laws.{ListLaws};

/// Removing takes an insertion back, inserting takes a removal back, and replacing takes a replacement back: the entries are then as before, and no such call is refused.
pub fn list_laws_hold<T: Copy>()
    ensures { ListLaws T }
{}
