use super::put_shape_refusal;
use bp_text::TextError;
use bp_value::ShapeFault;
use std::test::Fail;

#[test]
fn each_refusal_has_its_line(rt: HostRuntime) -> Result<(), Fail> {
    let rows: [(TextError, &[u8]); 4] = [
        (TextError::BadText { at: 4 }, b"shape: bad text at 4\n"),
        (TextError::Float { at: 0 }, b"shape: float at 0\n"),
        (
            TextError::NotGood(ShapeFault::EmptySum),
            b"shape: not good: empty sum\n",
        ),
        (
            TextError::NotGood(ShapeFault::SameName {
                first: 0,
                second: 12,
            }),
            b"shape: not good: same name 0 12\n",
        ),
    ];
    for (error, want) in rows {
        let mut out = Vec::new(rt.alloc());
        put_shape_refusal(&error, &mut out)?;
        assert_eq!(rt; out.as_slice(), want);
    }
    Ok(())
}
