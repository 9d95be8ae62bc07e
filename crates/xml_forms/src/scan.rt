//! Reading at the front of bytes. What can't be read there is answered by how many bytes were left where it stopped.
ghost use Rattle.std.specs.Prelude.{◌≡◌, ◌≤◌, ◌<◌, ℕ, List, ◌∷◌, length, take, slice_index, true, false, Some, None};
ghost use Rattle.std.specs.List.{list_all};
ghost use Rattle.xml_forms.specs.Bodies.{OnlySpaceLeft};
ghost use Rattle.xml_forms.specs.Forms.{Word, nearer};
ghost use Rattle.xml_forms.specs.Runs.{has, Element, IsRun, IsPositive, SkipsSpace};
ghost use Rattle.xml_forms.specs.Readers.{ReadsRest, ReadsText};

use crate::Class;

/// The bytes behind a word.
pub fn read_word_form<'a>(bytes: &'a [u8], word: &[u8]) -> Result<&'a [u8], usize>
    ensures { ReadsRest (Word word.now) bytes.now result }
{
    'bytes: for (i, expected) in word.iter().enumerate() {
        if i >= bytes.len() {
            return Err(0);
        }
        if bytes[i] != *expected {
            return Err(bytes.len() - i);
        }
    }
    Ok(&bytes[word.len()..])
}

/// The longest run of bytes of a class, of at most so many, and the bytes behind it.
pub fn read_run_form(bytes: &[u8], class: Class, most: usize) -> (&[u8], &[u8])
    ensures { IsRun class most bytes.now result.0.now result.1.now }
{
    let end = run_form_end(bytes, class, most);
    bytes.split_at(end)
}

// Where such a run ends.
fn run_form_end(bytes: &[u8], class: Class, most: usize) -> usize
    ensures within { result ≤ length bytes.now }
    ensures short { result ≤ most }
    ensures passes { list_all (has class) (take result bytes.now) ≡ true }
    ensures closed { result < length bytes.now → has class (slice_index bytes.now result) ≡ true
        → most ≤ result }
{
    let mut end = 0;
    'bytes: while end < bytes.len() && end < most && class.has(bytes[end]) {
        end += 1;
    }
    end
}

/// The bytes behind all white space.
pub fn skip_space(bytes: &[u8]) -> &[u8]
    ensures { SkipsSpace bytes.now result.now }
{
    let (_, rest) = read_run_form(bytes, Class::Space, bytes.len());
    rest
}

/// The text between two tags, of any length.
pub fn read_element_form<'a>(
    bytes: &'a [u8],
    start: &[u8],
    class: Class,
    end: &[u8],
) -> Result<(&'a [u8], &'a [u8]), usize>
    requires ends { (c : ℕ) × (cs : List ℕ) × (end.now ≡ c ∷ cs) × (has class c ≡ false) }
    ensures { ReadsText (Element start.now class false None end.now) bytes.now result }
{
    read_sized_element_form(bytes, start, class, false, None, end)
}

/// The text between two tags, of one byte at least and at most so many.
pub fn read_short_element_form<'a>(
    bytes: &'a [u8],
    start: &[u8],
    class: Class,
    most: usize,
    end: &[u8],
) -> Result<(&'a [u8], &'a [u8]), usize>
    requires positive { 0 < most }
    requires ends { (c : ℕ) × (cs : List ℕ) × (end.now ≡ c ∷ cs) × (has class c ≡ false) }
    ensures { ReadsText (Element start.now class true (Some most) end.now) bytes.now result }
{
    read_sized_element_form(bytes, start, class, true, Some(most), end)
}

fn read_sized_element_form<'a>(
    bytes: &'a [u8],
    start: &[u8],
    class: Class,
    filled: bool,
    most: Option<usize>,
    end: &[u8],
) -> Result<(&'a [u8], &'a [u8]), usize>
    requires positive { IsPositive most }
    requires ends { (c : ℕ) × (cs : List ℕ) × (end.now ≡ c ∷ cs) × (has class c ≡ false) }
    ensures { ReadsText (Element start.now class filled most end.now) bytes.now result }
{
    let rest = read_word_form(bytes, start)?;
    let (text, last) = read_run_form(rest, class, most.unwrap_or(rest.len()));
    if filled && text.is_empty() {
        return Err(last.len());
    }
    let after = read_word_form(last, end)?;
    Ok((text, after))
}

/// Whether nothing but white space is left.
pub fn only_space(bytes: &[u8]) -> Result<(), usize>
    ensures { OnlySpaceLeft bytes.now result }
{
    let rest = skip_space(bytes);
    if rest.is_empty() {
        Ok(())
    } else {
        Err(rest.len())
    }
}

/// Of two attempts the first that succeeds, or else what the one that got further answers.
pub fn nearer<T: Drop>(first: Result<T, usize>, second: Result<T, usize>) -> Result<T, usize>
    ensures { result ≡ nearer first second }
{
    match (first, second) {
        (Ok(found), _) => Ok(found),
        (Err(_), Ok(found)) => Ok(found),
        (Err(left), Err(other)) => Err(left.min(other)),
    }
}
