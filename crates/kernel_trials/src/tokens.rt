//! The tokens of a row. What is no token of its kind ends the test.

use cni_addr::{Addr, Cidr, read_addr, read_cidr};
use std::process::Abort;

/// The first token and the tokens after it.
pub(crate) fn cut(tokens: &str) -> (&str, &str) {
    match tokens.split_once(' ') {
        Some(parts) => parts,
        None => (tokens, ""),
    }
}

/// The tokens of a link: a container, the link's place as its namespace and name, and the tokens after these.
#[derive(Clone, Copy)]
pub(crate) struct LinkTokens<'a> {
    pub(crate) container: &'a str,
    pub(crate) ns: &'a str,
    pub(crate) link: &'a str,
    pub(crate) rest: &'a str,
}

pub(crate) fn link_tokens(tokens: &str) -> LinkTokens<'_> {
    let (container, tokens) = cut(tokens);
    let (ns, tokens) = cut(tokens);
    let (link, rest) = cut(tokens);
    LinkTokens {
        container,
        ns,
        link,
        rest,
    }
}

pub(crate) fn addr_of(rt: &impl Abort, token: &str) -> Addr {
    read_addr(token.as_bytes()).expect(rt, token)
}

pub(crate) fn cidr_of(rt: &impl Abort, token: &str) -> Cidr {
    read_cidr(token.as_bytes()).expect(rt, token)
}

pub(crate) fn number_of(rt: &impl Abort, token: &str) -> u16 {
    token.parse::<u16>().expect(rt, token)
}
