// What the words ask for.
ghost use Rattle.std.specs.Prelude.{◌<◌, length, IfSome};

use argot_text::Texts;

/// The stage whose work is shown.
#[derive(Clone, Copy)]
pub enum Stage {
    Tokens,
    Tree,
}

/// The stage, the number of the word that names the file, and whether the tokens or nodes are only counted.
#[derive(Clone, Copy)]
pub struct Request {
    pub stage: Stage,
    pub file: usize,
    pub count: bool,
}

fn stage_of(word: &str) -> Option<Stage> {
    if word == "tokens" {
        return Some(Stage::Tokens);
    }
    if word == "tree" {
        return Some(Stage::Tree);
    }
    None
}

/// `STAGE FILE` or `STAGE -count FILE`.
pub fn request_of(words: &Texts) -> Option<Request>
    ensures { IfSome result (λ request. request.file < length words.now) }
{
    if words.len() != 2 && words.len() != 3 {
        return None;
    }
    let stage = stage_of(words.get(0).as_str())?;
    if words.len() == 2 {
        return Some(Request {
            stage,
            file: 1,
            count: false,
        });
    }
    if words.get(1).as_str() == "-count" {
        return Some(Request {
            stage,
            file: 2,
            count: true,
        });
    }
    None
}
