// The places of a program whose place expressions go through fields and variables that matchers name.
ghost use Rattle.std.specs.Prelude.{◌≡◌, ◌≤◌, ◌||◌, [], true, false, IfOk, OnOk, length};
ghost use Rattle.argot_config.specs.Asking.{ArePlaces, printed, type_name};
ghost use Rattle.argot_config.specs.Looking.{IsFirstFound, finds_tag, three_in};
ghost use Rattle.argot_config.specs.Marking.{AreCounted, AreFirsts, FirstsFall, Gathers, IsListed};
ghost use Rattle.argot_config.specs.Matching.{looks_at_tags as kind_looks_at_tags};

use crate::looking::Look;
use argot_config_read::{MatchKind, Matcher};
use argot_plain::{Program, Tag};
use argot_text::{Sequence, Text};
use std::alloc::{AllocError, Global};

/// The places, ascending, each with the printed name of the first field or variable that one of the matchers names.
pub(crate) fn places(
    alloc: Global,
    matchers: &[Matcher],
    program: &Program,
) -> Result<Sequence<(u32, Text)>, AllocError>
    ensures { IfOk result (ArePlaces program.now matchers.now) }
{
    let mut firsts = counts(alloc, program)?;
    for matcher in matchers {
        lower(alloc, matcher, program, firsts.as_mut_slice())?;
    }
    let found = listed(alloc, program, firsts.as_slice())?;
    Ok(Sequence::from_vec(found))
}

// How many tags each place has.
fn counts(alloc: Global, program: &Program) -> Result<Vec<usize>, AllocError>
    ensures { IfOk result (λ made. AreFirsts program.now [] made.items) }
{
    let mut made = Vec::new(alloc);
    for i in 0..program.len() {
        made.push(program.instr(i).tags.len())?;
    }
    Ok(made)
}

// Takes each place's number down to the first of its tags that the matcher names.
fn lower(
    alloc: Global,
    matcher: &Matcher,
    program: &Program,
    firsts: &mut [usize],
) -> Result<(), AllocError>
    requires { AreCounted program.now firsts.old }
    ensures { OnOk result (FirstsFall program.now matcher.now firsts.old firsts.new) }
{
    if !looks_at_some(matcher.kind) {
        return Ok(());
    }
    let mut look = Look::new(alloc, matcher)?;
    for i in 0..program.len() {
        let tags = program.instr(i).tags.as_slice();
        let found = first(&mut look, matcher.kind, tags, firsts[i]);
        firsts[i] = found;
    }
    Ok(())
}

// The number of the first tag that is found among so many, else how many they are.
fn first(look: &mut Look<'_>, kind: MatchKind, tags: &[Tag], limit: usize) -> usize
    requires { limit ≤ length tags.now }
    ensures found { IsFirstFound (three_in look.old) kind tags.now limit result }
    ensures same { three_in look.new ≡ three_in look.old }
{
    for k in 0..limit {
        if is_found(look, kind, &tags[k]) {
            return k;
        }
    }
    limit
}

// Whether the tag is of this kind and the look finds it.
fn is_found(look: &mut Look<'_>, kind: MatchKind, tag: &Tag) -> bool
    ensures found { result ≡ finds_tag (three_in look.old) kind tag.now }
    ensures same { three_in look.new ≡ three_in look.old }
{
    looks_at_tags(kind, tag.global) && look.finds(&tag.ident)
}

fn looks_at_some(kind: MatchKind) -> bool
    ensures { result ≡ (kind_looks_at_tags kind true || kind_looks_at_tags kind false) }
{
    match kind {
        MatchKind::Func => false,
        MatchKind::Field | MatchKind::Global => true,
    }
}

// Whether matchers of the kind look at such tags.
fn looks_at_tags(kind: MatchKind, global: bool) -> bool
    ensures { result ≡ kind_looks_at_tags kind global }
{
    match kind {
        MatchKind::Func => false,
        MatchKind::Field => !global,
        MatchKind::Global => global,
    }
}

// The places whose number is that of a tag, each with the tag's printed name.
fn listed(
    alloc: Global,
    program: &Program,
    firsts: &[usize],
) -> Result<Vec<(u32, Text)>, AllocError>
    requires { length firsts.now ≡ length program.now.instrs }
    ensures { IfOk result (λ found. Gathers (λ x. x.0) (IsListed program.now firsts.now) (length program.now.instrs) found.items) }
{
    let mut found = Vec::new(alloc);
    for i in 0..program.len() {
        let tags = program.instr(i).tags.as_slice();
        let first = firsts[i];
        if first < tags.len() {
            let name = printed_name(alloc, &tags[first])?;
            found.push((i as u32, name))?;
        }
    }
    Ok(found)
}

// `PATH.NAME` for a variable, `PATH.TYPE.FIELD` for a field.
fn printed_name(alloc: Global, tag: &Tag) -> Result<Text, AllocError>
    ensures { IfOk result (λ name. name ≡ printed tag.now) }
{
    let ident = &tag.ident;
    let mut name = String::from_str(alloc, ident.package.as_str())?;
    name.push_str(".")?;
    if !tag.global {
        name.push_str(shown_type(&ident.receiver))?;
        name.push_str(".")?;
    }
    name.push_str(ident.name.as_str())?;
    Ok(Text::from_string(name))
}

// The name of a type, `struct` where it has none.
fn shown_type(receiver: &Text) -> &str
    ensures { result.now ≡ type_name receiver.now }
{
    let name = receiver.as_str();
    if name.is_empty() { "struct" } else { name }
}
