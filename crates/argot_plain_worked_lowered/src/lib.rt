//! The programs whose lowering is worked out in `argot_lower_worked`, run: the plain code that their texts have is well formed,
//! and does on the machine what Go does. So the definition of lowering and that of the machine meet in one program each.
//! The code of each is the one value that `argot_lower_worked` shows to be the lowered text. Each law is the contract of a
//! function that does nothing.
#![tactic(auto)]

ghost use Rattle.argot_plain_worked_lowered.specs.StraightLine.{ItIsWellFormed as StraightLineIsWellFormed, ItLeaks as StraightLineLeaks, ItEnds as StraightLineEnds, ItFlows as StraightLineFlows};
ghost use Rattle.argot_plain_worked_lowered.specs.Loop.{ItIsWellFormed as LoopIsWellFormed, ItEnds as LoopEnds, ItTurns as LoopTurns};
ghost use Rattle.argot_plain_worked_lowered.specs.Closure.{ItIsWellFormed as ClosureIsWellFormed, ItEnds as ClosureEnds, ItAssigns as ClosureAssigns};
ghost use Rattle.argot_plain_worked_lowered.specs.CalledMethod.{ItIsWellFormed as CalledMethodIsWellFormed, ItEnds as CalledMethodEnds, ItGives as CalledMethodGives};
ghost use Rattle.argot_plain_worked_lowered.specs.DeferredCall.{ItIsWellFormed as DeferredCallIsWellFormed, ItEnds as DeferredCallEnds, ItGives as DeferredCallGives};

/// What source gives is stored, and handed to sink: it leaks, and is a flow.
pub fn straight_line_runs()
    ensures well_formed { StraightLineIsWellFormed }
    ensures leaks { StraightLineLeaks }
    ensures ends { StraightLineEnds }
    ensures flow { StraightLineFlows }
{}

/// What a turn of the loop adds stands in the variable in the next turn; the program ends.
pub fn loop_runs()
    ensures well_formed { LoopIsWellFormed }
    ensures turns { LoopTurns }
    ensures ends { LoopEnds }
{}

/// The literal is called by its value, and assigns the captured variable; the program ends.
pub fn closure_runs()
    ensures well_formed { ClosureIsWellFormed }
    ensures assigns { ClosureAssigns }
    ensures ends { ClosureEnds }
{}

/// The method is found by the type in the box, and gives back the field; the program ends.
pub fn called_method_runs()
    ensures well_formed { CalledMethodIsWellFormed }
    ensures gives { CalledMethodGives }
    ensures ends { CalledMethodEnds }
{}

/// The deferred call runs at the exit, behind it the named result is read and handed back; the program ends.
pub fn deferred_call_runs()
    ensures well_formed { DeferredCallIsWellFormed }
    ensures gives { DeferredCallGives }
    ensures ends { DeferredCallEnds }
{}
