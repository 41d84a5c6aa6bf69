ghost use Rattle.sheet.specs.Laws.{ChecksRuled};

// The check refuses every text by the first of its conditions that holds, and no other text.
pub fn checks_stand()
    ensures { ChecksRuled }
{}
