//! What is read from printed literals.

ghost use Rattle.print_laws.specs.Literals.{TextsStay, NumbersStay, BytesStay};

/// A printed text, number or bytes literal is one token, from which the same text, number or bytes
/// are read.
pub fn printed_literals_are_read()
    ensures texts { TextsStay }
    ensures numbers { NumbersStay }
    ensures bytes { BytesStay }
{}
