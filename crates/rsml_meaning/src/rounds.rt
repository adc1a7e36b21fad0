ghost use Rattle.rsml_meaning.specs.RunLaws.{RoundsAreDeterminate, OrderDoesNotMatter};

/// In a certified specification a round on events that all end chains of n events from one external
/// event is determinate, from every world: no two taken sources lie on one line, each send instance
/// that is asked has one enabled case, each function has one true case, there is one result, and the
/// events that are left end chains of n + 1 events from the same one.
pub fn rounds_are_determinate()
    ensures { RoundsAreDeterminate }
{}

/// The transitions that are taken in such a round can be entered one after another in any order, with
/// the same result.
pub fn order_does_not_matter()
    ensures { OrderDoesNotMatter }
{}
