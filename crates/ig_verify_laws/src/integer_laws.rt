//! That integers fit. The functions do nothing: their contracts are the laws.
ghost use Rattle.ig_verify_laws.specs.IntegerLaws.{ReadCoresHaveSmallIntegers};
ghost use Rattle.ig_verify_laws.specs.IntegerLaws.{W3cCoresHaveSmallIntegers};

/// Each integer in the core grammar of a grammar that is read fits 64 bits. This law computes
/// nothing.
pub fn cores_have_small_integers()
    ensures { ReadCoresHaveSmallIntegers }
{
    ig_notation::read_grammars_are_regular();
}

/// Each integer in the core grammar of a grammar that is read in the notation of the XML
/// recommendation fits 64 bits. This law computes nothing.
pub fn w3c_cores_have_small_integers()
    ensures { W3cCoresHaveSmallIntegers }
{
    ig_w3c::read_grammars_are_regular();
}
