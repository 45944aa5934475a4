//! What people type asks for what they mean.

ghost use Rattle.std.specs.Prelude.{[], ◌∷◌, codes};
ghost use Rattle.reg_front.specs.declared.command.Command.TheVariants.{Settle, Plan, Statement, Figures, Totals};
ghost use Rattle.registry.specs.Words.{WordsAreTaken};

/// The words of each command are taken, and ask for it: `settle` for four workers, if no number stands behind
/// `--workers`.
pub fn typed_words_are_taken()
    ensures settle { WordsAreTaken (codes "settle" ∷ []) (Settle 4) }
    ensures workers { WordsAreTaken (codes "settle" ∷ codes "--workers" ∷ codes "8" ∷ []) (Settle 8) }
    ensures plan { WordsAreTaken (codes "plan" ∷ []) Plan }
    ensures statement { WordsAreTaken (codes "statement" ∷ codes "12" ∷ []) (Statement 12) }
    ensures figures { WordsAreTaken (codes "figures" ∷ []) Figures }
    ensures totals { WordsAreTaken (codes "totals" ∷ []) Totals }
{}
