//! A law of the layouts. The function does nothing: its contract is the law.

ghost use Rattle.ccan_chip.specs.MapLaws.{RegistersLieApart};

/// Two registers of a chip never share an offset.
pub fn registers_lie_apart()
    ensures { RegistersLieApart }
{}
