//! Laws: facts about the definitions alone. Each is the contract of a public function with an empty body.
ghost use Rattle.cmk_c.specs.Numbers.{FaultsHaveMessages};

/// Each fault has a number and a place that report it.
pub fn faults_have_messages()
    ensures { FaultsHaveMessages }
{}
