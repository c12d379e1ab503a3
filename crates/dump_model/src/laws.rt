ghost use Rattle.dump_model.specs.Laws.{IsSpeltOnce, ReadIsSpelt, SpeltIsRead};

/// Each snapshot has one spelling, whatever stands behind it.
pub fn spelt_once()
    ensures { IsSpeltOnce }
{}

/// Bytes have no fault exactly where they are the spellings of as many snapshots as are due, one after the other.
pub fn read_where_spelt()
    ensures spelt { ReadIsSpelt }
    ensures read { SpeltIsRead }
{}
