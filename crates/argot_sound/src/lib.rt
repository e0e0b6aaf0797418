//! Soundness over every interleaving: no run of a program, whatever its goroutines do in whatever order,
//! has a leak that is no flow. The statements stand in `specs/`, each as one definition, and are the
//! contracts of the functions of this crate, which do nothing when they run.
#![tactic(auto)]

ghost use Rattle.argot_sound.specs.Sound.{EachLeakIsAFlow, EachSharedObjectEscapes, EachLabelThereIsAnEscape, EachLabelAtAPointIsAnOrigin, EachRegisterHoldsOneContent, EachLiveGoroutineHasAStep};

/// Each leak of a run is a flow: where a program has no flow, no run of it leaks.
pub fn each_leak_is_a_flow()
    ensures { EachLeakIsAFlow }
{}

/// An object that two goroutines touch is of a site that escapes, and each label that it bears is an escape.
pub fn what_is_shared_escapes()
    ensures shared { EachSharedObjectEscapes }
    ensures labelled { EachLabelThereIsAnEscape }
{}

/// Where data is traced back, each label at a point is an origin.
pub fn each_label_at_a_point_is_an_origin()
    ensures { EachLabelAtAPointIsAnOrigin }
{}

/// A function that a reference or a box means is entered with the content that chose it: no register holds another one there.
pub fn each_register_holds_one_content()
    ensures { EachRegisterHoldsOneContent }
{}

/// Where a program hasn't ended, each of its goroutines that hasn't ended has a step.
pub fn each_live_goroutine_has_a_step()
    ensures { EachLiveGoroutineHasAStep }
{}
