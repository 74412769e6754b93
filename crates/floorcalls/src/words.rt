// Reading the words of a call.
use crate::refusal::Refusal;
use rules::fault::RuleFault;
use std::alloc::{AllocError, Global};
use std::str::FromStr;

pub(crate) fn number(word: &str) -> Result<usize, Refusal> {
    word.parse().map_err(|_| Refusal::Malformed)
}

// Two parts with a mark between.
pub(crate) fn parts(words: &str, mark: char) -> Result<(&str, &str), Refusal> {
    words.split_once(mark).ok_or(Refusal::Malformed)
}

// Two numbers with a space between.
pub(crate) fn two(words: &str) -> Result<(usize, usize), Refusal> {
    let (first, second) = parts(words, ' ')?;
    Ok((number(first)?, number(second)?))
}

// The numbers of a rule's list.
pub(crate) fn entries<N: FromStr + Drop>(heap: Global, words: &str) -> Result<Vec<N>, Refusal>
where
    N::Err: Drop,
{
    let mut list = Vec::new(heap);
    for word in words.split_whitespace() {
        let entry = word.parse::<N>().map_err(|_| RuleFault::BadEntry)?;
        list.push(entry).map_err(AllocError::from)?;
    }
    Ok(list)
}
