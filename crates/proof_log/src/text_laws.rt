ghost use Rattle.std.specs.Prelude.{◌≡◌, ℕ, List, None};
ghost use Rattle.proof_log.specs.AnswerRefusal.{text_fault, IsRefusedAs};
ghost use Rattle.proof_log.specs.AnswerText.{IsBestText, IsLogText, AreSame};
ghost use Rattle.proof_log.specs.declared.log.Log.{Log};
ghost use Rattle.proof_log.specs.declared.refusal.LogCause.{LogCause};
ghost use Rattle.proof_log.specs.declared.refusal.LogRefusal.TheVariants.{Refused};
ghost use Rattle.strip_model.specs.declared.acquisition.Acquisition.{Acquisition};

/// The laws of texts of answers: a text is that of one log, none of its lines is one that can't stand, and of a refused
/// text one line is the first, for one cause. The text of an answer without a log stands for one gain, one plan and one
/// number of labels. It does nothing: its contract is what it is for.
pub fn log_text_laws()
    ensures one_log { (bytes : List ℕ) (l m : Log) → IsLogText bytes l → IsLogText bytes m → AreSame l m }
    ensures none_refused { (bytes : List ℕ) (log : Log) → IsLogText bytes log → text_fault bytes ≡ None }
    ensures one_refusal { (bytes : List ℕ) (m n : ℕ) (c d : LogCause) → IsRefusedAs bytes (Refused m c) → IsRefusedAs bytes (Refused n d)
        → (m ≡ n) × (c ≡ d) }
    ensures one_best { (bytes : List ℕ) (gain more : ℕ) (plan other : List Acquisition) (labels others : ℕ)
        → IsBestText bytes gain plan labels → IsBestText bytes more other others → (gain ≡ more) × (plan ≡ other) × (labels ≡ others) }
{}
