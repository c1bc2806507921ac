//! Bytes spell one message or have one fault.
ghost use Rattle.std.specs.Prelude.{◌≡◌, ◌<◌, ℕ, List, Ok, All, length};
ghost use Rattle.exchange_law.specs.Sides.{Offer, Withdrawals};
ghost use Rattle.exchange_codec.specs.declared.fault.MessageFault.{MessageFault};
ghost use Rattle.exchange_codec.specs.Withdrawals.{SpellsWithdrawals, whole_list, list_due};
ghost use Rattle.partition_table.specs.Tables.{Table};
ghost use Rattle.exchange_codec.specs.Tables.{SpellsTable, IsTableFault};
ghost use Rattle.exchange_codec.specs.Offers.{SpellsOffer, IsOfferFault};
ghost use Rattle.exchange_codec.specs.laws.Programs.{Readings};

use insn_codec::one_reading_theorem;
use verifier::{Profile, one_verdict_theorem};

/// States that bytes spell at most one code, that accepted bytes have no fault, and that bytes have at most one fault as a
/// program. Does nothing at run time.
pub fn one_program_theorem()
    ensures { Readings }
{
    // For the proof: bytes have one reading, and code has one verdict.
    one_reading_theorem();
    one_verdict_theorem::<Profile>();
}

/// States that bytes spell at most one message, that bytes that spell one have no fault, that bytes have at most one fault,
/// and that a message has one spelling. Does nothing at run time.
pub fn one_message_theorem()
    ensures offers { (bytes : List ℕ) → (o p : Offer) → SpellsOffer bytes o → SpellsOffer bytes p → o ≡ p }
    ensures lists { (bytes : List ℕ) → (w v : Withdrawals) → SpellsWithdrawals bytes w → SpellsWithdrawals bytes v
        → w ≡ v }
    // Bytes that spell an offer have no fault.
    ensures either_offer { (bytes : List ℕ) → (o : Offer) → (f : MessageFault) → SpellsOffer bytes o
        → IsOfferFault bytes f → ⊥ }
    // Two faults of the same bytes are equal.
    ensures one_offer_fault { (bytes : List ℕ) → (f g : MessageFault) → IsOfferFault bytes f → IsOfferFault bytes g
        → f ≡ g }
    // `list_due`, which gives bytes a list or one fault, gives a list exactly for bytes that spell it.
    ensures spelled_list_due { (bytes : List ℕ) → (w : Withdrawals) → SpellsWithdrawals bytes w
        → list_due (length bytes) (whole_list bytes) ≡ Ok w }
    ensures due_list_spelled { (bytes : List ℕ) → (w : Withdrawals) → All (λ byte. byte < 256) bytes
        → list_due (length bytes) (whole_list bytes) ≡ Ok w → SpellsWithdrawals bytes w }
    ensures one_offer_spelling { (bytes other : List ℕ) → (o : Offer) → SpellsOffer bytes o → SpellsOffer other o
        → bytes ≡ other }
    ensures one_list_spelling { (bytes other : List ℕ) → (w : Withdrawals) → SpellsWithdrawals bytes w
        → SpellsWithdrawals other w → bytes ≡ other }
{
    one_program_theorem();
}

/// States the same of tables. Does nothing at run time.
pub fn one_table_theorem()
    ensures tables { (bytes : List ℕ) → (s t : Table) → SpellsTable bytes s → SpellsTable bytes t → s ≡ t }
    // Bytes that spell a table have no fault.
    ensures either { (bytes : List ℕ) → (t : Table) → (f : MessageFault) → SpellsTable bytes t → IsTableFault bytes f → ⊥ }
    // Two faults of the same bytes are equal.
    ensures one_fault { (bytes : List ℕ) → (f g : MessageFault) → IsTableFault bytes f → IsTableFault bytes g → f ≡ g }
    ensures one_spelling { (bytes other : List ℕ) → (t : Table) → SpellsTable bytes t → SpellsTable other t
        → bytes ≡ other }
{
    one_program_theorem();
}
