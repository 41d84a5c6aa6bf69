ghost use Rattle.signature.specs.Counted.{SignatureStands};

// Under the signature the cells of a line's two sums are numbers of states.
pub fn signature_stands()
    ensures { SignatureStands }
{}
