//! Laws of the grammar.

ghost use Rattle.std.specs.Prelude.{◌≡◌, ◌<◌, ◌^◌, ℕ, All, List, Some, decimal};
ghost use Rattle.tl_script_words.specs.Hex.{hex_text, address_text};
ghost use Rattle.tl_types.specs.Ticket.{ticket_text};
ghost use Rattle.tl_types.specs.declared.ticket.Ticket.{Ticket};
ghost use Rattle.tl_script_words.specs.Ticket.{ticket_of};
ghost use Rattle.tl_script_words.specs.Words.{number_of, address_of, bytes_of};

/// A text that is read as a number is what the number prints.
pub fn numbers_are_printed()
    ensures { (text : List ℕ) (n : ℕ) → number_of text ≡ Some n → text ≡ decimal n }
{}

/// An address is read back as it was printed.
pub fn addresses_are_read_back()
    ensures { (address : ℕ) → address < 2 ^ 32 → address_of (address_text address) ≡ Some address }
{}

/// Bytes are read back as they were printed.
pub fn bytes_are_read_back()
    ensures { (bytes : List ℕ) → All (λ b. b < 256) bytes → bytes_of (hex_text bytes) ≡ Some bytes }
{}

/// A ticket is read back as it was printed, so a step may take any ticket that a trace shows.
pub fn tickets_are_read_back()
    ensures { (t : Ticket) → t.bank < 2 ^ 32 → t.client < 2 ^ 32 → t.serial < 2 ^ 32
        → ticket_of (ticket_text t) ≡ Some t }
{}
