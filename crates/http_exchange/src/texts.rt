// Texts cut at a byte (specs/Texts.antt).
ghost use Rattle.std.specs.Prelude.{◌≡◌, ◌<◌, get_or, length, [], IfSome};
ghost use Rattle.http_exchange.specs.Texts.{front_of, rest_of, parts_of, shown};

/// A text at the first such byte: what stands before it, and what follows it, if it is there.
pub(crate) fn cut(text: &[u8], mark: u8) -> (&[u8], Option<&[u8]>)
    ensures front { result.0.now ≡ front_of mark text.now }
    ensures rest { shown result.1 ≡ rest_of mark text.now }
    ensures shorter { IfSome result.1 (λ rest. length rest.now < length text.now) }
{
    for (index, byte) in text.iter().enumerate() {
        if *byte == mark {
            return (&text[..index], Some(&text[index + 1..]));
        }
    }
    (text, None)
}

/// A part of a path between its slashes, by its number; what stands before the first slash has number 0.
/// Empty where there are not so many.
pub(crate) fn part(path: &[u8], number: usize) -> &[u8]
    ensures { result.now ≡ get_or (parts_of 47 path.now) number [] }
{
    let mut rest = path;
    'slashes: for step in 0..number {
        match cut(rest, b'/').1 {
            Some(next) => rest = next,
            None => return &[],
        }
    }
    cut(rest, b'/').0
}

/// A target at its first question mark: the path, and what follows it, if it is there.
pub(crate) fn path_and_query(target: &str) -> (&str, Option<&str>)
    ensures path { result.0.now ≡ front_of 63 target.now }
    ensures query { shown result.1 ≡ rest_of 63 target.now }
{
    match target.split_once('?') {
        Some((path, query)) => (path, Some(query)),
        None => (target, None),
    }
}
