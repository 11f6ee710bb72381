//! What is done unless something keeps it from being done.
ghost use Rattle.fault_laws.specs.Served.{PlainActsAreDone};

/// Lines that set something, stop or restart a node, make a placement, deliver, or keep up are done, where no refusal is due,
/// nothing is in the way of a plan, no fault is listed, and neither memory nor room for events is wanted: that follows from
/// each answer's having its cause.
pub fn plain_acts_are_done()
    ensures { PlainActsAreDone }
{}
