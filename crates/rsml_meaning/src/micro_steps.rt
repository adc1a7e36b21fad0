ghost use Rattle.rsml_meaning.specs.RunLaws.{MicroStepsExist, MicroStepsLeaveWorlds, MicroStepsAreOne};

/// There is a micro-step from every world, on any events, and it leaves a world. It has one result
/// where no two taken sources lie on one line and each function has one value.
pub fn micro_steps_have_one_result()
    ensures exist { MicroStepsExist }
    ensures worlds { MicroStepsLeaveWorlds }
    ensures one { MicroStepsAreOne }
{}
