//! Laws of the definitions: functions that do nothing, whose contracts are theorems.

ghost use Rattle.std.specs.Prelude.{◌≡◌, Ok};
ghost use Rattle.view_config.specs.Config.{text_means};
ghost use Rattle.view_config.specs.Worked.{ConstantsRead, FaultsAreFound, LimitsAreAccepted, amounts, amounts_text, pairs};
ghost use Rattle.view_config.specs.Worked.{pairs_text, texts, texts_text, zones, zones_text};

/// Four configurations are what their texts mean, each of some wrong texts has its one fault, texts at the limits have
/// none, and constants at the borders of their ranges are read as they are written: all computed.
pub fn worked_law()
    ensures amounts { text_means amounts_text ≡ Ok amounts }
    ensures pairs { text_means pairs_text ≡ Ok pairs }
    ensures zones { text_means zones_text ≡ Ok zones }
    ensures texts { text_means texts_text ≡ Ok texts }
    ensures faults { FaultsAreFound }
    ensures limits { LimitsAreAccepted }
    ensures constants { ConstantsRead }
{}
