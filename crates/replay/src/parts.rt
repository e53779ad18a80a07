// Lines on numbers, texts, values and the two negotiations: whether the port answers what stands there.
use crate::fields::{BYTES, Fields, LineError, NUMBERS};
use crate::verdict::Expected;
use answer::Read;

// N LEN
pub(crate) fn length_line(mut fields: Fields) -> Result<bool, LineError> {
    let n = fields.number()?;
    let len = fields.number()?;
    fields.end()?;
    Ok(varint::varint_len(n) as u64 == len)
}

// N BYTES
pub(crate) fn encode_line(mut fields: Fields) -> Result<bool, LineError> {
    let n = fields.number()?;
    let mut bytes = [0; BYTES];
    let bytes = fields.bytes(&mut bytes)?;
    fields.end()?;
    let mut out = [0; 10];
    let answer = varint::encode_varint(n, &mut out);
    Ok(Expected::bytes(bytes).is_written(answer, &out, bytes))
}

// INPUT ANSWER AT VALUE
pub(crate) fn decode_line(mut fields: Fields) -> Result<bool, LineError> {
    let mut input = [0; BYTES];
    let input = fields.bytes(&mut input)?;
    let expected = fields.expected()?;
    let want = fields.number()?;
    fields.end()?;
    Ok(match varint::decode_varint(input) {
        Ok(read) => expected.is_done(read.used) && want == read.value,
        Err(r) => expected.is_refused(r) && want == 0,
    })
}

// BYTES TEXT
pub(crate) fn lossy_line(mut fields: Fields) -> Result<bool, LineError> {
    let mut bytes = [0; BYTES];
    let bytes = fields.bytes(&mut bytes)?;
    let mut text = [0; BYTES];
    let text = fields.bytes(&mut text)?;
    fields.end()?;
    let mut out = [0; 192];
    let answer = utf8::lossy_text(bytes, &mut out);
    Ok(Expected::bytes(text).is_written(answer, &out, text))
}

// YES BYTES
pub(crate) fn form_line(mut fields: Fields) -> Result<bool, LineError> {
    let yes = fields.number()?;
    let mut bytes = [0; BYTES];
    let bytes = fields.bytes(&mut bytes)?;
    fields.end()?;
    Ok(u64::from(utf8::is_utf8(bytes)) == yes)
}

// YES BYTES BYTES
pub(crate) fn same_line(mut fields: Fields) -> Result<bool, LineError> {
    let yes = fields.number()?;
    let mut a = [0; BYTES];
    let a = fields.bytes(&mut a)?;
    let mut b = [0; BYTES];
    let b = fields.bytes(&mut b)?;
    fields.end()?;
    Ok(u64::from(utf8::same_text(a, b)) == yes)
}

// INPUT ANSWER AT KIND A B, and FLAGS, which the Rust passes over: its lines are without them.
pub(crate) fn value_line(mut fields: Fields) -> Result<bool, LineError> {
    let mut input = [0; BYTES];
    let input = fields.bytes(&mut input)?;
    let expected = fields.expected()?;
    let want = fields.numbers()?;
    let flags = fields.number_if_any()?;
    fields.end()?;
    Ok(match types::typed_data(input) {
        Ok(Read { value, used }) => {
            expected.is_done(used)
                && want == [value.kind, value.a, value.b]
                && flags.unwrap_or(value.flags) == value.flags
        },
        Err(r) => expected.is_refused(r) && want == [0; 3] && flags.unwrap_or(0) == 0,
    })
}

// THEIRS OURS ANSWER AT
pub(crate) fn size_line(mut fields: Fields) -> Result<bool, LineError> {
    let theirs = u32::try_from(fields.number()?)?;
    let ours = u32::try_from(fields.number()?)?;
    let expected = fields.expected()?;
    fields.end()?;
    Ok(match hello::negotiate_max_frame_size(theirs, ours) {
        Ok(size) => expected.is_done(size as usize),
        Err(r) => expected.is_refused(r),
    })
}

// YES, and the numbers of versions and of a rest
pub(crate) fn version_line(mut fields: Fields) -> Result<bool, LineError> {
    let yes = fields.number()?;
    let mut versions = [0; NUMBERS];
    let versions = fields.rest(&mut versions)?;
    Ok(match hello::negotiate_version(versions) {
        Some(v) => yes == 1 && [v.major, v.minor, v.patch] == [2, 0, 0],
        None => yes == 0,
    })
}
