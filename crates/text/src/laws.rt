ghost use Rattle.text.specs.Laws.{TextLaws};

// What holds of every text: each line and each token is the part of the text at its place, and a line
// asks for a change only if it is that change's text.
pub fn texts_stand()
    ensures { TextLaws }
{}
