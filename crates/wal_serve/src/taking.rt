//! Taking bytes of a source, of which only so many may be taken.

ghost use Rattle.std.specs.Prelude.{◌≡◌, ℕ, ◌<◌, ◌≤◌, List, length, true, false};
ghost use Rattle.wal_port.specs.Faults.{Rose};
ghost use Rattle.wal_serve.specs.inside.Taking.{Takes};
ghost use Rattle.wal_serve.specs.declared.taking.Took.TheVariants.{Whole};

use wal_port::Source;

/// How taking bytes ended.
#[derive(Clone, Copy, Debug, PartialEq, Eq)]
pub(crate) enum Took {
    /// All were taken.
    Whole,
    /// The source ended before.
    Ended,
    /// The source had one byte more than may be taken.
    TooLong,
    /// A read failed.
    Failed,
}

/// Whether all were taken.
fn is_whole(took: Took) -> bool
    ensures whole { result ≡ true → took ≡ Whole }
    ensures other { result ≡ false → took ≡ Whole → ⊥ }
{
    match took {
        Took::Whole => true,
        Took::Ended | Took::TooLong | Took::Failed => false,
    }
}

/// Takes as many bytes as there is room for.
fn fill_all<S: Source>(source: &mut S, into: &mut [u8]) -> Took
    ensures takes { (got : List ℕ)
        × Takes (S.left source.old) (S.left source.new)
        (Rose (S.faults source.old) (S.faults source.new))
        (length into.new) (length into.new) result got
        × (result ≡ Whole → into.new ≡ got) }
    ensures later { S.faults source.old ≤ S.faults source.new }
{
    let mut done = 0;
    'pieces: while done < into.len() {
        match source.read(&mut into[done..]) {
            Ok(0) => return Took::Ended,
            Ok(count) => done += count,
            Err(_) => return Took::Failed,
        }
    }
    Took::Whole
}

/// Asks for one byte, where none may be taken.
fn past<S: Source>(source: &mut S) -> Took
    ensures takes { (got : List ℕ)
        × Takes (S.left source.old) (S.left source.new)
        (Rose (S.faults source.old) (S.faults source.new)) 1 0 result got }
    ensures later { S.faults source.old ≤ S.faults source.new }
{
    let mut byte = [0];
    match source.read(&mut byte) {
        Ok(0) => Took::Ended,
        Ok(_) => Took::TooLong,
        Err(_) => Took::Failed,
    }
}

/// Takes as many bytes as there is room for, of which at most `most` may be taken.
pub(crate) fn fill<S: Source>(source: &mut S, into: &mut [u8], most: u64) -> Took
    ensures takes { (got : List ℕ)
        × Takes (S.left source.old) (S.left source.new)
        (Rose (S.faults source.old) (S.faults source.new)) (length into.new) most result got
        × (result ≡ Whole → into.new ≡ got) }
    ensures later { S.faults source.old ≤ S.faults source.new }
{
    if into.len() as u64 <= most {
        return fill_all(source, into);
    }
    let took = fill_all(source, &mut into[..most as usize]);
    if is_whole(took) { past(source) } else { took }
}

/// Takes so many bytes and keeps none.
fn skip_all<S: Source>(source: &mut S, scratch: &mut [u8], size: u64) -> Took
    requires { 0 < length scratch.old }
    ensures takes { (got : List ℕ)
        × Takes (S.left source.old) (S.left source.new)
        (Rose (S.faults source.old) (S.faults source.new)) size size result got }
    ensures later { S.faults source.old ≤ S.faults source.new }
{
    let mut done = 0;
    'pieces: while done < size {
        let count = scratch.len().min((size - done) as usize);
        match source.read(&mut scratch[..count]) {
            Ok(0) => return Took::Ended,
            Ok(count) => done += count as u64,
            Err(_) => return Took::Failed,
        }
    }
    Took::Whole
}

/// Takes so many bytes and keeps none, of which at most `most` may be taken.
pub(crate) fn skip<S: Source>(source: &mut S, scratch: &mut [u8], size: u64, most: u64) -> Took
    requires { 0 < length scratch.old }
    ensures takes { (got : List ℕ)
        × Takes (S.left source.old) (S.left source.new)
        (Rose (S.faults source.old) (S.faults source.new)) size most result got }
    ensures later { S.faults source.old ≤ S.faults source.new }
{
    if size <= most {
        return skip_all(source, scratch, size);
    }
    let took = skip_all(source, scratch, most);
    if is_whole(took) { past(source) } else { took }
}
