// The fields of a sale into the bytes of its nonce and of its record.
ghost use Rattle.std.specs.Prelude.{◌≡◌, length};
ghost use Rattle.sales.specs.Sale.{nonce_of, record_of};

use crate::Sale;

// The sale's nonce.
pub fn put_nonce(of: Sale, out: &mut [u8])
    requires { length out.old ≡ 16 }
    ensures { out.new ≡ nonce_of of }
{
    out[0..4].copy_from_slice(&of.machine.to_le_bytes());
    out[4..8].copy_from_slice(&of.sale.to_le_bytes());
    out[8..16].copy_from_slice(&of.tail);
}

// The sale's record.
pub fn put_record(of: Sale, out: &mut [u8])
    requires { length out.old ≡ 13 }
    ensures { out.new ≡ record_of of }
{
    out[0..4].copy_from_slice(&of.amount.to_le_bytes());
    out[4..6].copy_from_slice(&of.column.to_le_bytes());
    out[6] = of.means;
    out[7..11].copy_from_slice(&of.price.to_le_bytes());
    out[11..13].copy_from_slice(&of.day.to_le_bytes());
}
