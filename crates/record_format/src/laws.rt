// What holds of the spellings of all items.
ghost use Rattle.record_format.specs.Laws.{IsReadBack, IsUnambiguous, IsSpelled};

/// What is spelled is read back, whatever stands behind it. Does nothing.
pub fn spelling_is_read_back()
    ensures { IsReadBack }
{}

/// No spelling begins that of another item. Does nothing.
pub fn spelling_is_unambiguous()
    ensures { IsUnambiguous }
{}

/// What is read as an item is spelled by the bytes there. Does nothing.
pub fn whole_is_spelled()
    ensures { IsSpelled }
{}
