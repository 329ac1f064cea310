ghost use Rattle.std.specs.Prelude.{◌≡◌, ◌<◌, ◌==◌, length, position};
ghost use Rattle.std.specs.List.{list_all, before_first, after_first};
ghost use Rattle.pb_grammar.specs.Grammar.{is_printable};
ghost use Rattle.pb_encode.specs.Choosing as definition;

use crate::options::{Form, Options};
use pb_words::Refusal;

/// What the words so far have chosen.
#[derive(Clone, Copy, Debug, PartialEq, Eq)]
pub struct Chosen {
    pub form: Form,
    /// Whether the chosen process is the scaled one; none where no process is chosen.
    pub scaled: Option<bool>,
    pub header: bool,
    pub status: bool,
    pub one_shot: bool,
}

impl Chosen {
    fn at_start() -> Chosen
        ensures { result ≡ definition.at_start }
    {
        Chosen {
            form: Form::Ascii,
            scaled: None,
            header: true,
            status: true,
            one_shot: false,
        }
    }

    fn bare() -> Chosen
        ensures { result ≡ definition.bare }
    {
        Chosen {
            form: Form::Unframed,
            scaled: Some(false),
            header: false,
            status: false,
            one_shot: true,
        }
    }

    /// With one more word, which may be empty.
    fn after(self, word: &[u8]) -> Result<Chosen, Refusal>
        ensures { result ≡ definition.after_word self word.now }
    {
        if word == b"".as_slice() {
            Ok(self)
        } else if word == b"UNFRAMED".as_slice() {
            Ok(self.in_form(Form::Unframed))
        } else if word == b"FRAMED".as_slice() {
            Ok(self.in_form(Form::Framed))
        } else if word == b"BASE64".as_slice() {
            Ok(self.in_form(Form::Base64))
        } else if word == b"ASCII".as_slice() {
            Ok(self.in_form(Form::Ascii))
        } else if word == b"UNSCALED".as_slice() {
            Ok(self.by_process(false))
        } else if word == b"SCALED".as_slice() {
            Ok(self.by_process(true))
        } else {
            self.after_flag(word)
        }
    }

    /// With one more word that chooses neither form nor process.
    fn after_flag(self, word: &[u8]) -> Result<Chosen, Refusal>
        ensures { result ≡ definition.after_flag self word.now }
    {
        if word == b"NO_HEADER".as_slice() {
            Ok(Chosen {
                header: false,
                ..self
            })
        } else if word == b"NO_STATUS".as_slice() {
            Ok(Chosen {
                status: false,
                ..self
            })
        } else if word == b"ONE_SHOT".as_slice() {
            Ok(Chosen {
                one_shot: true,
                ..self
            })
        } else if word == b"BARE".as_slice() {
            Ok(Chosen::bare())
        } else if word == b"DEFAULT".as_slice() {
            Ok(Chosen::at_start())
        } else {
            Err(Refusal::UnknownOption)
        }
    }

    fn in_form(self, form: Form) -> Chosen
        ensures { result ≡ definition.in_form self form }
    {
        Chosen { form, ..self }
    }

    fn by_process(self, is_scaled: bool) -> Chosen
        ensures { result ≡ definition.by_process self is_scaled }
    {
        Chosen {
            scaled: Some(is_scaled),
            ..self
        }
    }

    /// The options, where the process suits the form.
    pub(crate) fn options(self) -> Result<Options, Refusal>
        ensures { result ≡ definition.options_by self }
    {
        let is_ascii = self.form == Form::Ascii;
        if self.scaled.unwrap_or(false) && !is_ascii {
            return Err(Refusal::ScaledNeedsAscii);
        }
        Ok(Options {
            form: self.form,
            scaled: self.scaled.unwrap_or(is_ascii),
            header: self.header,
            status: self.status,
            one_shot: self.one_shot,
        })
    }
}

/// What the words of a line choose, from left to right.
pub(crate) fn chosen_by(line: &[u8]) -> Result<Chosen, Refusal>
    ensures { result ≡ definition.after_words definition.at_start (definition.words line.now) }
{
    let mut chosen = Chosen::at_start();
    let mut rest = line;
    while !rest.is_empty() {
        let (word, others) = cut_word(rest);
        match chosen.after(word) {
            Ok(next) => chosen = next,
            Err(refusal) => return Err(refusal),
        }
        rest = others;
    }
    Ok(chosen)
}

/// What stands before the first space, and what behind it.
#[tactic(auto, using(crate::proofs::ChoosingLemmas::cutting))]
fn cut_word(text: &[u8]) -> (&[u8], &[u8])
    requires { 0 < length text.now }
    ensures word { result.0.now ≡ before_first (λ b. b == 32) text.now }
    ensures others { result.1.now ≡ after_first (λ b. b == 32) text.now }
    ensures shorter { length result.1.now < length text.now }
{
    match first_space(text) {
        Some(i) => (&text[..i], &text[i + 1..]),
        None => (text, &[]),
    }
}

fn first_space(text: &[u8]) -> Option<usize>
    ensures { result ≡ position (λ b. b == 32) text.now }
{
    text.iter().position(|b| *b == b' ')
}

/// Whether all bytes can be printed, the space among them.
pub(crate) fn can_be_printed(line: &[u8]) -> bool
    ensures { result ≡ list_all is_printable line.now }
{
    line.iter().all(|b| b' ' <= *b && *b <= b'~')
}
