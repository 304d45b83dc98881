// tau_hat, a label beside those of the table: the number of labels.
ghost use Rattle.std.specs.Prelude.{◌≡◌};
ghost use Rattle.columns.specs.Answers.{said_number, said_flag};
ghost use Rattle.signatures.specs.TauHat.{tau_hat, is_tau_hat};

use columns::answers::Answer;
use columns::checks::check_labels;

// The label tau_hat of a table with this number of labels.
pub fn tau_hat(labels: u16) -> Answer<u64>
    ensures { said_number result ≡ tau_hat labels }
{
    if let Err(refusal) = check_labels(labels as usize) {
        return Answer::refused(refusal);
    }
    Answer::done(labels as u64)
}

// Whether a label is tau_hat.
pub fn is_tau_hat(labels: u16, label: u16) -> Answer<bool>
    ensures { said_flag result ≡ is_tau_hat labels label }
{
    if let Err(refusal) = check_labels(labels as usize) {
        return Answer::refused(refusal);
    }
    Answer::done(label == labels)
}
