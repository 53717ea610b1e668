//! What holds of each layout.

ghost use Rattle.pcml_chart_layout.specs.Clear.{LabelsAreClear, NamesAreClear, OffersAreClear, OthersAreClear, StampsAreClear, StandsAreClear};

/// No text crosses a line of life, with 8 for each character that is seen: a stamp stands before the first line, the
/// label of a commit between two lines, and a name or a foot between the lines beside its own.
pub fn layout_laws()
    ensures stamps { StampsAreClear }
    ensures labels { LabelsAreClear }
    ensures names { NamesAreClear }
    ensures others { OthersAreClear }
    ensures stands { StandsAreClear }
    ensures offers { OffersAreClear }
{}
