//! Worked programs for the rules of the machine and of the relations. Each is a few lines of Go as plain code, with runs
//! that use the rule for which it is there, what comes to its sinks, and edges and flows that the relation has or hasn't. A rule
//! that could never apply, or a relation that held nothing or everything, would be seen here.
//!
//! A program stands in a file of its own in specs/, under its lines of Go; `Worked.antt` says what programs are made of
//! and what is said of them. Their runs are short in proofs/: where the machine has no choice they go ahead by
//! evaluation, and the steps that a program is there for are named. That the programs are well formed is evaluated too.
//! `bench/worked.sh` shows that no rule is without a worked case. Each law is the contract of a function that does nothing.
#![tactic(auto)]

ghost use Rattle.argot_plain_worked_rules.specs.Slices.{ItIsWellFormed as SlicesIsWellFormed, ItLeaks as SlicesLeaks, ItCopiesElements as SlicesCopiesElements, ItComesTooLate as SlicesComesTooLate, ItKeepsApart as SlicesKeepsApart, ItFlows as SlicesFlows, ItFlowsNot as SlicesFlowsNot};
ghost use Rattle.argot_plain_worked_rules.specs.Externals.{ItIsWellFormed as ExternalsIsWellFormed, ItLeaks as ExternalsLeaks, ItComesClean as ExternalsComesClean, ItEnds as ExternalsEnds, ItGoesThrough as ExternalsGoesThrough, ItStaysOutside as ExternalsStaysOutside, ItFlows as ExternalsFlows, ItFlowsNot as ExternalsFlowsNot};
ghost use Rattle.argot_plain_worked_rules.specs.Unwinding.{ItIsWellFormed as UnwindingIsWellFormed, ItLeaks as UnwindingLeaks, ItEnds as UnwindingEnds, ItMayEndEarly as UnwindingMayEndEarly, ItIsNotHanded as UnwindingIsNotHanded, ItEntersAnother as UnwindingEntersAnother, ItFlows as UnwindingFlows, ItFlowsNot as UnwindingFlowsNot};
ghost use Rattle.argot_plain_worked_rules.specs.NilFunction.{ItIsWellFormed as NilFunctionIsWellFormed, ItLeaks as NilFunctionLeaks, ItEnds as NilFunctionEnds, ItFlows as NilFunctionFlows, ItIsNotHanded as NilFunctionIsNotHanded};
ghost use Rattle.argot_plain_worked_rules.specs.Boxes.{ItIsWellFormed as BoxesIsWellFormed, ItLeaks as BoxesLeaks, ItFlows as BoxesFlows, ItIsAnother as BoxesIsAnother};
ghost use Rattle.argot_plain_worked_rules.specs.Sanitized.{ItIsWellFormed as SanitizedIsWellFormed, ItComesClean as SanitizedComesClean, ItLeaks as SanitizedLeaks, ItWouldLeak as SanitizedWouldLeak, ItIsCut as SanitizedIsCut, ItFlows as SanitizedFlows, ItFlowsNot as SanitizedFlowsNot, ItWouldFlow as SanitizedWouldFlow};
ghost use Rattle.argot_plain_worked_rules.specs.Validated.{ItIsWellFormed as ValidatedIsWellFormed, ItComesClean as ValidatedComesClean, ItLeaks as ValidatedLeaks, ItWouldLeak as ValidatedWouldLeak, ItFlows as ValidatedFlows, ItFlowsNot as ValidatedFlowsNot, ItWouldFlow as ValidatedWouldFlow};
ghost use Rattle.argot_plain_worked_rules.specs.SourcePlace.{ItIsWellFormed as SourcePlaceIsWellFormed, ItLeaks as SourcePlaceLeaks, ItComesClean as SourcePlaceComesClean, ItLeaksAgain as SourcePlaceLeaksAgain, ItIsAnother as SourcePlaceIsAnother, ItWouldLeak as SourcePlaceWouldLeak, ItFlows as SourcePlaceFlows, ItFlowsNot as SourcePlaceFlowsNot};
ghost use Rattle.argot_plain_worked_rules.specs.Overwritten.{ItIsWellFormed as OverwrittenIsWellFormed, ItComesClean as OverwrittenComesClean, ItComesCleanAgain as OverwrittenComesCleanAgain, ItMayBeRead as OverwrittenMayBeRead, ItIsGone as OverwrittenIsGone, ItFlowsNot as OverwrittenFlowsNot, ItIsKeptWell as OverwrittenIsKeptWell, ItWouldLeak as OverwrittenWouldLeak, ItWouldLeakAgain as OverwrittenWouldLeakAgain, ItWouldFlow as OverwrittenWouldFlow};
ghost use Rattle.argot_plain_worked_rules.specs.Shared.{ItIsWellFormed as SharedIsWellFormed, ItStarts as SharedStarts, ItStartsAnother as SharedStartsAnother, ItIsTouched as SharedIsTouched, ItEscapes as SharedEscapes, ItLeaks as SharedLeaks, ItFlows as SharedFlows};
ghost use Rattle.argot_plain_worked_rules.specs.Handed.{ItIsWellFormed as HandedIsWellFormed, ItLeaks as HandedLeaks, ItIsInside as HandedIsInside, ItComesTooLate as HandedComesTooLate, ItFlows as HandedFlows, ItFlowsNot as HandedFlowsNot};
ghost use Rattle.argot_plain_worked_rules.specs.Twice.{ItIsWellFormed as TwiceIsWellFormed, ItLeaks as TwiceLeaks, ItComesClean as TwiceComesClean, ItFlows as TwiceFlows, ItFlowsNot as TwiceFlowsNot};
ghost use Rattle.argot_plain_worked_rules.specs.Variables.{ItIsWellFormed as VariablesIsWellFormed, ItComesClean as VariablesComesClean, ItGoesByTheVariable as VariablesGoesByTheVariable, ItIsWrittenWell as VariablesIsWrittenWell, ItWouldLeak as VariablesWouldLeak, ItFlows as VariablesFlows, ItMayBeRead as VariablesMayBeRead};
ghost use Rattle.argot_plain_worked_rules.specs.TracedBack.{ItIsWellFormed as TracedBackIsWellFormed, ItComesToThePoint as TracedBackComesToThePoint, ItIsAnother as TracedBackIsAnother, ItIsAdded as TracedBackIsAdded};

/// Slices that grow: of nothing by nothing, into a fresh slice, in place, and into a copy of the elements.
pub fn slices()
    ensures well_formed { SlicesIsWellFormed }
    ensures leaks { SlicesLeaks }
    ensures edge { SlicesCopiesElements }
    ensures none { SlicesComesTooLate }
    ensures apart { SlicesKeepsApart }
    ensures flow { SlicesFlows }
    ensures no_flow { SlicesFlowsNot }
{}

/// Functions without a body, called, started and deferred: what one gives bears the labels of what it was handed, what
/// another gives doesn't.
pub fn externals()
    ensures well_formed { ExternalsIsWellFormed }
    ensures leaks { ExternalsLeaks }
    ensures clean { ExternalsComesClean }
    ensures ends { ExternalsEnds }
    ensures edge { ExternalsGoesThrough }
    ensures none { ExternalsStaysOutside }
    ensures flow { ExternalsFlows }
    ensures no_flow { ExternalsFlowsNot }
{}

/// A panic unwinds two functions, and a deferred sink is called on the way; it may begin at any place.
pub fn unwinding()
    ensures well_formed { UnwindingIsWellFormed }
    ensures leaks { UnwindingLeaks }
    ensures ends { UnwindingEnds }
    ensures early { UnwindingMayEndEarly }
    ensures none { UnwindingIsNotHanded }
    ensures not_entered { UnwindingEntersAnother }
    ensures flow { UnwindingFlows }
    ensures no_flow { UnwindingFlowsNot }
{}

/// A deferred call of nothing begins to panic, and the other deferred call still runs.
pub fn nil_function()
    ensures well_formed { NilFunctionIsWellFormed }
    ensures leaks { NilFunctionLeaks }
    ensures ends { NilFunctionEnds }
    ensures flow { NilFunctionFlows }
    ensures none { NilFunctionIsNotHanded }
{}

/// A write of nothing through nothing goes on, and a box is taken as its type.
pub fn boxes()
    ensures well_formed { BoxesIsWellFormed }
    ensures leaks { BoxesLeaks }
    ensures flow { BoxesFlows }
    ensures none { BoxesIsAnother }
{}

/// A sanitizer cleans what comes back from it, and nothing else; without it the same run leaks.
pub fn sanitized()
    ensures well_formed { SanitizedIsWellFormed }
    ensures clean { SanitizedComesClean }
    ensures leaks { SanitizedLeaks }
    ensures would_leak { SanitizedWouldLeak }
    ensures none { SanitizedIsCut }
    ensures flow { SanitizedFlows }
    ensures no_flow { SanitizedFlowsNot }
    ensures would_flow { SanitizedWouldFlow }
{}

/// A validator cleans a value behind its test; on the other way, and without the validator, it leaks.
pub fn validated()
    ensures well_formed { ValidatedIsWellFormed }
    ensures clean { ValidatedComesClean }
    ensures leaks { ValidatedLeaks }
    ensures would_leak { ValidatedWouldLeak }
    ensures flow { ValidatedFlows }
    ensures no_flow { ValidatedFlowsNot }
    ensures would_flow { ValidatedWouldFlow }
{}

/// A field is a source where it is read and where it is moved out of a struct; another field is none.
pub fn source_place()
    ensures well_formed { SourcePlaceIsWellFormed }
    ensures leaks { SourcePlaceLeaks }
    ensures clean { SourcePlaceComesClean }
    ensures moved { SourcePlaceLeaksAgain }
    ensures none { SourcePlaceIsAnother }
    ensures would_leak { SourcePlaceWouldLeak }
    ensures flow { SourcePlaceFlows }
    ensures no_flow { SourcePlaceFlowsNot }
{}

/// What is overwritten is gone from a register and from an object, and would have leaked; the relation keeps what was written
/// to an object.
pub fn overwritten()
    ensures well_formed { OverwrittenIsWellFormed }
    ensures clean { OverwrittenComesClean }
    ensures replaced { OverwrittenComesCleanAgain }
    ensures edge { OverwrittenMayBeRead }
    ensures none { OverwrittenIsGone }
    ensures no_flow { OverwrittenFlowsNot }
    ensures kept { OverwrittenIsKeptWell }
    ensures would_leak { OverwrittenWouldLeak }
    ensures would_leak_again { OverwrittenWouldLeakAgain }
    ensures would_flow { OverwrittenWouldFlow }
{}

/// What a Go hands on comes to the parameter of the function that it starts; two goroutines touch one box, so it escapes.
pub fn shared()
    ensures well_formed { SharedIsWellFormed }
    ensures edge { SharedStarts }
    ensures none { SharedStartsAnother }
    ensures touched { SharedIsTouched }
    ensures escape { SharedEscapes }
    ensures leaks { SharedLeaks }
    ensures flow { SharedFlows }
{}

/// A sink that is handed a reference looks at what is behind it; what is written later comes too late.
pub fn handed()
    ensures well_formed { HandedIsWellFormed }
    ensures leaks { HandedLeaks }
    ensures edge { HandedIsInside }
    ensures none { HandedComesTooLate }
    ensures flow { HandedFlows }
    ensures no_flow { HandedFlowsNot }
{}

/// What a function is handed by one call comes back to that call alone.
pub fn twice()
    ensures well_formed { TwiceIsWellFormed }
    ensures leaks { TwiceLeaks }
    ensures clean { TwiceComesClean }
    ensures flow { TwiceFlows }
    ensures no_flow { TwiceFlowsNot }
{}

/// A package variable is written after it was read, and comes clean; with the lines in the other order it leaks.
pub fn variables()
    ensures well_formed { VariablesIsWellFormed }
    ensures clean { VariablesComesClean }
    ensures none { VariablesGoesByTheVariable }
    ensures written { VariablesIsWrittenWell }
    ensures would_leak { VariablesWouldLeak }
    ensures flow { VariablesFlows }
    ensures edge { VariablesMayBeRead }
{}

/// Where data is traced back, a label that begins where nothing leads comes to the argument of a point.
pub fn traced_back()
    ensures well_formed { TracedBackIsWellFormed }
    ensures traced { TracedBackComesToThePoint }
    ensures none { TracedBackIsAnother }
    ensures edge { TracedBackIsAdded }
{}
