//! Worked programs, as values, and what the machine and the relations say of them: a wrong definition is
//! seen here before anything is built on it. Each law is the contract of a function that does nothing.
#![tactic(auto)]

ghost use Rattle.argot_plain_worked.specs.FirstFlow.{ItLeaks, ItHasTwentyPlaces, ItHasSevenNodes, ItHasSixEdges, ItIsWellFormed};
ghost use Rattle.argot_plain_worked.specs.FirstFlowRead.{ItHasTheForm, ItIsDrawn};
ghost use Rattle.argot_plain_worked.specs.FilledBox.{ItLeaks as FilledBoxLeaks, ItIsWellFormed as FilledBoxIsWellFormed, ItFlows as FilledBoxFlows, ItIsNotHanded as FilledBoxIsNotHanded};
ghost use Rattle.argot_plain_worked.specs.DeferredCall.{ItEnds as DeferredCallEnds, ItIsWellFormed as DeferredCallIsWellFormed, ItIsHanded as DeferredCallIsHanded, ItComesTooLate as DeferredCallComesTooLate};
ghost use Rattle.argot_plain_worked.specs.CalledMethod.{ItEnds as CalledMethodEnds, ItLeaks as CalledMethodLeaks, BothAreWellFormed as CalledMethodsAreWellFormed, ItFlows as CalledMethodFlows, ItIsAnotherMethod as CalledMethodIsAnother};
ghost use Rattle.argot_plain_worked.specs.DeferredLiteral.{ItLeaks as DeferredLiteralLeaks, ItIsWellFormed as DeferredLiteralIsWellFormed, ItFlows as DeferredLiteralFlows, ItIsTheVariable as DeferredLiteralIsTheVariable};
ghost use Rattle.argot_plain_worked.specs.ReadFirst.{ItEnds as ReadFirstEnds, ItIsWellFormed as ReadFirstIsWellFormed, ItIsWritten as ReadFirstIsWritten, ItComesTooLate as ReadFirstComesTooLate, ItIsNotReadBack as ReadFirstIsNotReadBack, ItIsWellShared as ReadFirstIsWellShared, ItMayBeReadBack as ReadFirstMayBeReadBack};

/// The first program has a run that leaks: the call of its source reaches argument 0 of its sink.
pub fn first_flow_leaks()
    ensures { ItLeaks }
{}

/// It has twenty places, seven nodes and six edges, and no more, however its functions are called, wherever its
/// instructions stand, and however many registers there are that nothing uses.
pub fn first_flow_is_drawn()
    ensures places { ItHasTwentyPlaces }
    ensures nodes { ItHasSevenNodes }
    ensures edges { ItHasSixEdges }
{}

/// Its bytes have the first form, and what the definitions make of them is drawn so too.
pub fn first_flow_is_read()
    ensures form { ItHasTheForm }
    ensures drawn { ItIsDrawn }
{}

/// It is well formed, so that all that is said of well-formed programs is said of it.
pub fn first_flow_is_well_formed()
    ensures { ItIsWellFormed }
{}

/// A goroutine fills a box with secret data before it is read: the label of its source reaches the sink, through the box.
pub fn filled_box()
    ensures well_formed { FilledBoxIsWellFormed }
    ensures leaks { FilledBoxLeaks }
    ensures flow { FilledBoxFlows }
    ensures none { FilledBoxIsNotHanded }
{}

/// A deferred call of a sink runs at the exit, with what it was handed before; the program ends.
pub fn deferred_call()
    ensures well_formed { DeferredCallIsWellFormed }
    ensures ends { DeferredCallEnds }
    ensures edge { DeferredCallIsHanded }
    ensures no_flow { DeferredCallComesTooLate }
{}

/// A method is found by the type of the value in the box: the one that hands back secret data reaches the sink; with a box of
/// the other type the program ends.
pub fn called_method()
    ensures well_formed { CalledMethodsAreWellFormed }
    ensures ends { CalledMethodEnds }
    ensures leaks { CalledMethodLeaks }
    ensures flow { CalledMethodFlows }
    ensures none { CalledMethodIsAnother }
{}

/// A deferred literal runs at the exit and reads what its captured variable holds then: secret data, which reaches the sink.
pub fn deferred_literal()
    ensures well_formed { DeferredLiteralIsWellFormed }
    ensures leaks { DeferredLiteralLeaks }
    ensures flow { DeferredLiteralFlows }
    ensures none { DeferredLiteralIsTheVariable }
{}

/// A box is read before secret data is written to it; the program ends, and there is no flow. Where a goroutine is handed the
/// box, what is written may come to the read.
pub fn read_first()
    ensures well_formed { ReadFirstIsWellFormed }
    ensures ends { ReadFirstEnds }
    ensures edge { ReadFirstIsWritten }
    ensures no_flow { ReadFirstComesTooLate }
    ensures none { ReadFirstIsNotReadBack }
    ensures well_shared { ReadFirstIsWellShared }
    ensures shared { ReadFirstMayBeReadBack }
{}
