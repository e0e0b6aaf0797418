// Whom a call calls.
ghost use Rattle.std.specs.Prelude.{◌≡◌, ℕ, ◌<◌, ◌≤◌, ◌^◌, Bool, List, Some, true, length, slice_get, IfSome, IsNone};
ghost use Rattle.argot_plain.specs.Lists.{In};
ghost use Rattle.argot_plain.specs.Code.{IsFunction, arguments, param_of};
ghost use Rattle.argot_plain.specs.declared.instructions.Callee.{Callee as Callees};
ghost use Rattle.argot_points.specs.Meaning.{IsCall, IsValued, IsDispatched, MeansAt, Means, IsTaken, IsReturned};
ghost use Rattle.argot_points.specs.Solved.{Fits};

use crate::system::System;
use argot_plain::{Callee, Kind};
use argot_text::Text;

/// A call: whom it calls, its written arguments, and how many results stand before the handed values.
#[derive(Drop)]
pub(crate) struct Calling<'a> {
    pub callee: &'a Callee,
    pub args: &'a [u32],
    pub behind: usize,
}

impl<'a> Calling<'a> {
    /// How many arguments there are: the box by which a method is called is the first.
    pub fn arguments(&self) -> usize
        ensures { result ≡ length (arguments self.now.callee.now self.now.args.now) }
    {
        match self.callee {
            Callee::Method(_, _) => self.args.len() + 1,
            _ => self.args.len(),
        }
    }
}

/// The parameter of a handed value, where there are so many arguments.
pub(crate) fn param_of(takes: bool, arguments: usize, index: u32) -> Option<usize>
    ensures { result ≡ param_of takes arguments index }
{
    let index = index as usize;
    if takes {
        return if index == arguments {
            Some(0)
        } else {
            Some(index + 1)
        };
    }
    if index < arguments { Some(index) } else { None }
}

impl<'a> System<'a> {
    /// The call at a place, where there is one.
    pub fn calling(&self, place: u32) -> Option<Calling<'a>>
        requires { Fits self.now }
        ensures found { IfSome result (λ c. IsCall self.now.program.now place c.callee.now c.args.now c.behind) }
        ensures only { IfSome result (λ c. (callee : Callees) (args : List ℕ) (n : ℕ) → IsCall self.now.program.now place callee args n → (callee ≡ c.callee.now) × (args ≡ c.args.now) × (n ≡ c.behind)) }
        ensures none { IsNone result → (callee : Callees) (args : List ℕ) (n : ℕ) → IsCall self.now.program.now place callee args n → ⊥ }
    {
        if place as usize >= self.program.len() {
            return None;
        }
        match self.program.kind(place as usize) {
            Kind::Call { to, callee, args } => Some(Calling {
                callee,
                args: args.as_slice(),
                behind: to.len(),
            }),
            Kind::Go { callee, args } => Some(Calling {
                callee,
                args: args.as_slice(),
                behind: 0,
            }),
            Kind::Defer { callee, args } => Some(Calling {
                callee,
                args: args.as_slice(),
                behind: 0,
            }),
            _ => None,
        }
    }
}

/// Whether this is the method of the type and the name.
fn is_method(method: &(u32, Text, u32), dynamic: u32, name: &Text) -> bool
    ensures yes { result ≡ true → method.now ≡ (dynamic, name.now, method.now.2) }
    ensures no { method.now.0 ≡ dynamic → method.now.1 ≡ name.now → result ≡ true }
{
    method.0 == dynamic && method.1.as_str() == name.as_str()
}

impl<'a> System<'a> {
    fn method(&self, n: usize) -> &(u32, Text, u32)
        requires { n < length self.now.program.now.methods }
        ensures { slice_get self.now.program.now.methods n ≡ Some result.now }
    {
        &self.program.methods()[n]
    }

    /// The wrapper of a type and a name.
    fn wrapper(&self, dynamic: u32, name: &Text) -> Option<u32>
        ensures found { IfSome result (λ g. In (dynamic, name.now, g) self.now.program.now.methods) }
        ensures none { IsNone result → (g : ℕ) → In (dynamic, name.now, g) self.now.program.now.methods → ⊥ }
    {
        for n in 0..self.program.methods().len() {
            let method = self.method(n);
            if is_method(method, dynamic, name) {
                return Some(method.2);
            }
        }
        None
    }
}

impl<'a> System<'a> {
    /// The function that an object of the site stands for, and whether it takes the reference.
    fn valued(&self, site: u32) -> Option<(u32, bool)>
        requires { Fits self.now }
        ensures found { IfSome result (λ r. IsValued self.now site r.0 r.1) }
        ensures only { IfSome result (λ r. (g : ℕ) (takes : Bool) → IsValued self.now site g takes → (g ≡ r.0) × (takes ≡ r.1)) }
        ensures none { IsNone result → (g : ℕ) (takes : Bool) → IsValued self.now site g takes → ⊥ }
        ensures inside { IfSome result (λ r. r.0 < length self.now.program.now.functions) }
    {
        if site as usize >= self.program.site_count() {
            return None;
        }
        let function = self.program.site(site as usize).function?;
        if function as usize >= self.program.function_count() {
            return None;
        }
        Some((function, self.program.function(function as usize).has_env))
    }

    /// The wrapper of the type of what the site holds, by the method's name.
    fn dispatched(&self, site: u32, name: &Text) -> Option<u32>
        requires { Fits self.now }
        ensures found { IfSome result (λ g. IsDispatched self.now site name.now g) }
        ensures only { IfSome result (λ g. (h : ℕ) → IsDispatched self.now site name.now h → h ≡ g) }
        ensures none { IsNone result → (h : ℕ) → IsDispatched self.now site name.now h → ⊥ }
        ensures inside { IfSome result (λ g. g < length self.now.program.now.functions) }
    {
        if site as usize >= self.program.site_count() {
            return None;
        }
        self.wrapper(self.program.site(site as usize).dynamic, name)
    }
}

impl<'a> System<'a> {
    /// The function that a callee means at an object of the site, and whether it takes the reference.
    fn means_at(&self, callee: &Callee, site: u32) -> Option<(u32, bool)>
        requires { Fits self.now }
        ensures found { IfSome result (λ r. MeansAt self.now site callee.now r.0 r.1) }
        ensures only { IfSome result (λ r. (g : ℕ) (takes : Bool) → MeansAt self.now site callee.now g takes → (g ≡ r.0) × (takes ≡ r.1)) }
        ensures none { IsNone result → (g : ℕ) (takes : Bool) → MeansAt self.now site callee.now g takes → ⊥ }
        ensures inside { IfSome result (λ r. r.0 < length self.now.program.now.functions) }
    {
        match callee {
            Callee::Static(_) => None,
            Callee::Value(_) => match self.valued(site) {
                Some(valued) => Some(valued),
                None => None,
            },
            Callee::Method(_, name) => match self.dispatched(site, name) {
                Some(g) => Some((g, false)),
                None => None,
            },
        }
    }

    /// The same at the object of which a location is a part.
    pub fn means(&self, callee: &Callee, y: u32) -> Option<(u32, bool)>
        requires fits { Fits self.now }
        requires inside { y < length self.now.locations.items }
        ensures found { IfSome result (λ r. Means self.now callee.now y r.0 r.1) }
        ensures only { IfSome result (λ r. (g : ℕ) (takes : Bool) → Means self.now callee.now y g takes → (g ≡ r.0) × (takes ≡ r.1)) }
        ensures none { IsNone result → (g : ℕ) (takes : Bool) → Means self.now callee.now y g takes → ⊥ }
        ensures inside { IfSome result (λ r. r.0 < length self.now.program.now.functions) }
    {
        self.means_at(callee, self.location(y as usize).site)
    }
}

impl<'a> System<'a> {
    /// The parameter that the handed value of this index becomes, at a target that takes the reference or doesn't.
    pub fn param(&self, place: u32, takes: bool, index: u32) -> Option<usize>
        requires { Fits self.now }
        ensures found { IfSome result (λ j. IsTaken self.now place takes index j) }
        ensures only { IfSome result (λ j. (k : ℕ) → IsTaken self.now place takes index k → k ≡ j) }
        ensures none { IsNone result → (k : ℕ) → IsTaken self.now place takes index k → ⊥ }
    {
        match self.calling(place) {
            Some(calling) => match param_of(takes, calling.arguments(), index) {
                Some(param) => Some(param),
                None => None,
            },
            None => None,
        }
    }

    /// The register of the value of this index that the function hands back.
    pub fn handed(&self, g: u32, index: u32) -> Option<u32>
        requires fits { Fits self.now }
        requires inside { g < length self.now.program.now.functions }
        ensures found { IfSome result (λ r. IsReturned self.now g index r) }
        ensures only { IfSome result (λ r. (q : ℕ) → IsReturned self.now g index q → q ≡ r) }
        ensures none { IsNone result → (q : ℕ) → IsReturned self.now g index q → ⊥ }
    {
        let leave = self.program.function(g as usize).leave;
        match self.program.kind(leave as usize) {
            Kind::Leave { from } => register_at(from.as_slice(), index),
            _ => None,
        }
    }
}

/// The register of this index.
fn register_at(registers: &[u32], index: u32) -> Option<u32>
    ensures { result ≡ slice_get registers.now index }
{
    if (index as usize) < registers.len() {
        return Some(registers[index as usize]);
    }
    None
}
