//! Tests of `enc_sniff`: pages of HTML, heads of XML documents, headers of mails, and guesses.
#![tactic(auto)]

#[cfg(test)]
mod cases;
#[cfg(test)]
mod doc_examples;
#[cfg(test)]
mod guesses;
#[cfg(test)]
mod mails;
#[cfg(test)]
mod pages;
#[cfg(test)]
mod xml_heads;
