// What a power cut can leave of a medium: definitions and laws. The code that writes is the crate `carrier`.
#![tactic(auto)]

ghost use Rattle.device.specs.Remarks.{Remarks};

// The remarks on cuts of specs/Remarks.antt hold.
pub fn remarks()
    ensures { Remarks }
{}
