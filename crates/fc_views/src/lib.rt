//! What judgements see of modules: those in view alone.
#![tactic(auto)]

ghost use Rattle.fc_views.specs.Views.{CoercionsSeeTheView, ExpressionsSeeTheView, HeadersCloseViews, HeadersMentionFewer, KindsSeeTheView, ModulesSeeTheView, NamesAreInView};

/// What mentions modules in view alone is judged by what these declare. Where two sets of modules declare the same in view, and what is declared there
/// mentions modules in view alone, what has a kind, proves, has a type or holds against the one does against the other, and the types in the answer
/// mention modules in view alone. A definition that is mentioned must have in the other the type that it has in the one. Such a view is closed where the
/// declarations of its modules, without right sides, mention modules in view alone; and the definitions that these mention are of modules in view.
pub fn judgements_see_what_is_in_view()
    ensures kinds { KindsSeeTheView }
    ensures coercions { CoercionsSeeTheView }
    ensures expressions { ExpressionsSeeTheView }
    ensures modules { ModulesSeeTheView }
    ensures closed { HeadersCloseViews }
    ensures fewer { HeadersMentionFewer }
    ensures names { NamesAreInView }
{}
