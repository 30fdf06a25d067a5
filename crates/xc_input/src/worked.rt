//! What the definitions say of worked texts.

ghost use Rattle.xc_input.specs.Worked.{Cuts, ItemLines, OptionLines, Problems};

/// The first faults and the problems of a few texts.
pub fn worked_texts()
    ensures cuts { Cuts }
    ensures item_lines { ItemLines }
    ensures option_lines { OptionLines }
    ensures problems { Problems }
{}
