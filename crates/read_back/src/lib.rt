//! The law that what a reply shows is read from a script as the same.
#![tactic(auto)]

ghost use Rattle.std.specs.Prelude.{◌≡◌, ◌^◌, ◌<◌, ◌≤◌, ℕ, ℤ, List, Some, true, decimal};
ghost use Rattle.crdt_core.specs.declared.object.ObjectId.{ObjectId};
ghost use Rattle.crdt_core.specs.declared.value.Value.{Value};
ghost use Rattle.field_codec.specs.Spelling.{is_text};
ghost use Rattle.read_back.specs.ReadBack.{IsOneWord, ReadsBack, ReadsBackObject, IsOneLine, IsAmount, MayName};
ghost use Rattle.reply_text.specs.Places.{word_text, message_text, report_text};
ghost use Rattle.reply_text.specs.Values.{value_text};
ghost use Rattle.script_text.specs.Grammar.{message, report};
ghost use Rattle.script_text.specs.Numbers.{integer};
ghost use Rattle.script_text.specs.Places.{number, time, site, part, tx};
ghost use Rattle.script_text.specs.Texts.{text};
ghost use Rattle.site_vector.specs.declared.ids.PartId.{PartId};
ghost use Rattle.site_vector.specs.declared.ids.TxId.{TxId};
ghost use Rattle.site_vector.specs.Printed.{part_text, tx_text};
ghost use Rattle.world_model.specs.declared.step.Step.{Step};

/// The law of replies and scripts: each text that a reply shows is read from a script as the same text, and is one word
/// of its line. So are numbers, times, sites, places, transactions, messages and reports, as far as a script may name
/// them, and the values of counters and registers; an object is read from the words that show it. What a step shows is
/// one line, with the words of each thing shown.
pub fn law_reads_back()
    ensures words { (t : List ℕ) → IsOneWord (word_text t) }
    ensures texts { (t : List ℕ) → is_text t ≡ true → text (word_text t) ≡ Some t }
    ensures objects { (o : ObjectId) → is_text o.key ≡ true → is_text o.bucket ≡ true → ReadsBackObject o }
    ensures numbers { (n : ℕ) → n < 2 ^ 48 → ReadsBack number (decimal n) n }
    ensures times { (n : ℕ) → n ≤ 2 ^ 62 → ReadsBack time (decimal n) n }
    ensures sites { (n : ℕ) → 1 ≤ n → n ≤ 8 → ReadsBack site (decimal n) n }
    ensures parts { (p : PartId) → MayName p.site p.part → ReadsBack part (part_text p) p }
    ensures transactions { (t : TxId) → MayName t.site t.part → t.time ≤ 2 ^ 62 → ReadsBack tx (tx_text t) t }
    ensures messages { (n : ℕ) → n < 2 ^ 48 → ReadsBack message (message_text n) n }
    ensures reports { (n : ℕ) → n < 2 ^ 48 → ReadsBack report (report_text n) n }
    ensures counters { (z : ℤ) → IsAmount z → ReadsBack integer (value_text (Value.Int z)) z }
    ensures registers { (t : List ℕ) → is_text t ≡ true → ReadsBack text (value_text (Value.Word t)) t }
    ensures lines { (s : Step) → IsOneLine s }
{}
