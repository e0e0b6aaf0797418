// The words of the command line.
ghost use Rattle.std.specs.Prelude.{◌≡◌};
ghost use Rattle.std.specs.Option.{option_copied};
ghost use Rattle.argot_run.specs.Words.{asked, folder_of, names_folder, without_slashes};

use argot_text::Texts;

/// The folder that the words ask to analyse, if they are a request.
pub fn asked(words: &Texts) -> Option<&str>
    ensures { option_copied result ≡ asked words.now }
{
    match words.as_slice() {
        [verb, word] if verb.as_str() == "taint" && names_folder(word.as_str()) => {
            Some(folder_of(word.as_str()))
        }
        _ => None,
    }
}

fn names_folder(word: &str) -> bool
    ensures { result ≡ names_folder word.now }
{
    match word.as_bytes() {
        [] => false,
        [first, ..] => *first != b'-',
    }
}

fn folder_of(word: &str) -> &str
    ensures { result.now ≡ folder_of word.now }
{
    let folder = without_slashes(word);
    if folder.is_empty() { "/" } else { folder }
}

fn without_slashes(word: &str) -> &str
    ensures { result.now ≡ without_slashes word.now }
{
    let mut folder = word;
    while let Some(rest) = folder.strip_suffix('/') {
        folder = rest;
    }
    folder
}
