//! Worked programs, from their bytes to their plain code: a wrong definition of lowering is seen here before anything is
//! built on it. Each law is the contract of a function that does nothing. A file of `specs/` has a program with its bytes,
//! tokens, tree, types and uses, the code that it has, and what is said of it.
#![tactic(auto)]

ghost use Rattle.argot_lower_worked.specs.StraightLine as StraightLine;
ghost use Rattle.argot_lower_worked.specs.Loop as Loop;
ghost use Rattle.argot_lower_worked.specs.Closure as Closure;
ghost use Rattle.argot_lower_worked.specs.CalledMethod as CalledMethod;
ghost use Rattle.argot_lower_worked.specs.DeferredCall as DeferredCall;

/// A call whose result is stored and handed on: each of its four functions has the code that its script says.
pub fn straight_line_is_lowered()
    ensures code { StraightLine.IsLowered }
    ensures names { StraightLine.IsNamed }
{}

/// A loop with a variable that each turn changes.
pub fn loop_is_lowered()
    ensures code { Loop.IsLowered }
    ensures names { Loop.IsNamed }
{}

/// A function literal that assigns a captured variable, called by a value.
pub fn closure_is_lowered()
    ensures code { Closure.IsLowered }
    ensures names { Closure.IsNamed }
{}

/// A method that is called through an interface, with the wrapper for the type in the box.
pub fn called_method_is_lowered()
    ensures code { CalledMethod.IsLowered }
    ensures names { CalledMethod.IsNamed }
{}

/// A deferred call of a built-in function, in a function with a named result, which is an object.
pub fn deferred_call_is_lowered()
    ensures code { DeferredCall.IsLowered }
    ensures names { DeferredCall.IsNamed }
{}
