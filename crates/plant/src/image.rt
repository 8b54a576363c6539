// A table on the caller's bytes: two for the count, then two for each element, the higher byte first.
ghost use Rattle.std.specs.Prelude.{IsTrue, drop, ◌≡◌, ◌≤◌, length, pos, negsuc, ◌≤ℤ◌, IfOk};
ghost use Rattle.std.specs.Simd.{first_chunks};
ghost use Rattle.plant.specs.ByteTable.{image_check, image_count, cell_number, image_meaning, bytes_after_put};
ghost use Rattle.plant.specs.Meaning.{within, get_answer, put_answer, put_meaning};

use super::refusals::Refusal;
use super::tables::{Element, Table};

// Bytes that are no image open as a table with no elements, so that they are never written.
// Contracts name the field, so that who lent the bytes knows them again when the table is gone.
#[derive(Drop)]
pub struct Image<'a> {
    bytes: &'a mut [u8],
}

impl<'a> Image<'a> {
    pub fn open(bytes: &'a mut [u8]) -> Image<'a>
        ensures bytes { result.bytes.now ≡ bytes.old }
        ensures lender { result.bytes.ghost_name ≡ bytes.entry.ghost_name }
    {
        Image { bytes }
    }

    // The number of elements, or a refusal where the bytes are no image.
    pub fn check(bytes: &[u8]) -> Result<u16, Refusal>
        ensures { result ≡ image_check bytes.now }
    {
        let (count, cells) = bytes.split_first_chunk().ok_or(Refusal::BadImage)?;
        let count = u16::from_be_bytes(*count);
        if count > 256 || cells.len() != 2 * usize::from(count) {
            return Err(Refusal::BadImage);
        }
        Ok(count)
    }

    // The cells of the elements: none where the bytes are no image.
    fn cells(&self) -> &[[u8; 2]]
        ensures value { result.now ≡ first_chunks 2 (image_count self.now.bytes.now) (drop 2 self.now.bytes.now) }
        ensures len { length result.now ≡ image_count self.now.bytes.now }
    {
        match Image::check(self.bytes) {
            Ok(_) => self.bytes[2..].as_chunks().0,
            Err(_) => &[],
        }
    }
}

impl<'a> Table for Image<'a> {
    ghost meaning = { λ table. image_meaning table.bytes.now };

    fn count(&self) -> u16
        ensures value { result ≡ length (image_meaning self.now.bytes.now).numbers }
        ensures bound { result ≤ 256 }
        ensures cells { result ≡ image_count self.now.bytes.now }
    {
        Image::check(self.bytes).unwrap_or(0)
    }

    fn lowest(&self) -> i64
        ensures value { result ≡ (image_meaning self.now.bytes.now).lowest }
        ensures bound { negsuc 999_999_999_999 ≤ℤ result }
        ensures limit { result ≡ negsuc 32_767 }
    {
        i64::from(i16::MIN)
    }

    fn highest(&self) -> i64
        ensures value { result ≡ (image_meaning self.now.bytes.now).highest }
        ensures bound { ((image_meaning self.now.bytes.now).lowest ≤ℤ result) × (result ≤ℤ pos 1_000_000_000_000) }
        ensures limit { result ≡ pos 32_767 }
    {
        i64::from(i16::MAX)
    }

    fn get(&self, element: Element) -> Result<i64, Refusal>
        ensures value { result ≡ get_answer (image_meaning self.now.bytes.now) element.0 }
        ensures inside { IfOk result (λ v. IsTrue (within (image_meaning self.now.bytes.now) v)) }
        ensures cell { IfOk result (λ v. v ≡ cell_number self.now.bytes.now element.0) }
    {
        let cell = self
            .cells()
            .get(usize::from(element.0))
            .ok_or(Refusal::NoSuchElement)?;
        // Taken apart, since the proof knows only of bytes that are read that they are below 256.
        let [high, low] = *cell;
        Ok(i64::from(i16::from_be_bytes([high, low])))
    }

    fn put(&mut self, element: Element, number: i64) -> Result<(), Refusal>
        ensures value { result ≡ put_answer (image_meaning self.old.bytes.now) element.0 number }
        ensures after { image_meaning self.new.bytes.now ≡ put_meaning (image_meaning self.old.bytes.now) element.0 number }
        ensures bytes { self.new.bytes.now ≡ bytes_after_put self.old.bytes.now element.0 number }
        ensures lender { self.new.bytes.ghost_name ≡ self.old.bytes.ghost_name }
    {
        self.get(element)?;
        let number = i16::try_from(number).map_err(|_| Refusal::NumberOutsideLimits)?;
        // Not by `as_chunks_mut`, which says nothing of the bytes afterwards.
        let place = 2 + 2 * usize::from(element.0);
        self.bytes[place..place + 2].copy_from_slice(&number.to_be_bytes());
        Ok(())
    }
}
