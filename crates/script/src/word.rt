//! Words of a line.
ghost use Rattle.std.specs.Prelude.{◌≡◌, ◌<◌, position, length, IfSome};
ghost use Rattle.std.specs.Option.{option_copied};
ghost use Rattle.script.specs.Word.{word, behind, is_space};

fn space(line: &[u8]) -> Option<usize>
    ensures place { result ≡ position is_space line.now }
    ensures within { IfSome result (λ i. i < length line.now) }
{
    line.iter().position(|byte| *byte == b' ')
}

/// The word before the first space, and what stands behind that space.
#[tactic(auto, unfolding(crate::specs::Word::word, crate::specs::Word::behind))]
pub fn cut(line: &[u8]) -> (&[u8], Option<&[u8]>)
    ensures word { result.0.now ≡ word line.now }
    ensures behind { option_copied result.1 ≡ behind line.now }
{
    match space(line) {
        None => (line, None),
        Some(i) => {
            let (front, back) = line.split_at(i);
            let (_, rest) = back.split_at(1);
            (front, Some(rest))
        }
    }
}

/// The line's first word: all of it before the first space.
pub fn first_word(line: &[u8]) -> &[u8]
    ensures { result.now ≡ word line.now }
{
    let (first, _) = cut(line);
    first
}
