ghost use Rattle.std.specs.Prelude.{◌≡◌, ◌<◌, ◌≤◌, ◌||◌, ◌↔◌, All, IfSome, IfNone, IsTrue, length, position};
ghost use Rattle.pb_tables.specs.Bodies.{is_blank, IsGap, Leads};
ghost use Rattle.pb_tables.specs.Scanning.{IsEnd, IsNumeral};
ghost use Rattle.pb_words.specs.Signed.{is_digit};

/// Whether every byte is a digit, a space or a newline.
pub(crate) fn are_numerals(body: &[u8]) -> bool
    ensures { IsTrue result ↔ All IsNumeral body.now }
{
    body.iter().all(|b| is_digit(*b) || is_blank(*b))
}

/// The digits of the first number, and what follows them; none where there are only blanks.
pub(crate) fn next_number(body: &[u8]) -> Option<(&[u8], &[u8])>
    requires { All IsNumeral body.now }
    ensures some { IfSome result (λ p. Leads p.0.now p.1.now body.now) }
    ensures none { IfNone result (IsGap body.now) }
{
    let start = match first_digit(body) {
        Some(start) => start,
        None => return None,
    };
    let (_gap, number) = body.split_at(start);
    let end = first_blank(number);
    Some(number.split_at(end))
}

/// The place of the first digit.
fn first_digit(body: &[u8]) -> Option<usize>
    ensures place { result ≡ position is_digit body.now }
    ensures within { IfSome result (λ place. place < length body.now) }
{
    body.iter().position(|b| is_digit(*b))
}

/// Where the first blank is, or the end.
fn first_blank(body: &[u8]) -> usize
    ensures { IsEnd body.now result }
{
    match body.iter().position(|b| is_blank(*b)) {
        Some(place) => place,
        None => body.len(),
    }
}

fn is_digit(b: u8) -> bool
    ensures { result ≡ is_digit b }
{
    b'0' <= b && b <= b'9'
}

fn is_blank(b: u8) -> bool
    ensures { result ≡ is_blank b }
{
    b == b' ' || b == b'\n'
}
