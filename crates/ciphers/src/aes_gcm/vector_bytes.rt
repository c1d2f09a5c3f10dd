//! SubBytes (FIPS 197, 5.1.1) on planes, by the circuit of Boyer and Peralta: no table, and no branch.

ghost use Rattle.std.specs.Prelude.{◌≡◌};
ghost use Rattle.ciphers.specs.AesGcm.VectorBytes.{bottom, down_to_16, inverse, sub_bytes, top, up_to_256};

use crate::aes_gcm::lanes::Vectors;
use std::simd::prelude::*;

// The sums of input planes that the products take.
#[derive(Clone, Copy)]
pub(crate) struct Sums {
    y1: u8x16,
    y2: u8x16,
    y3: u8x16,
    y4: u8x16,
    y5: u8x16,
    y6: u8x16,
    y7: u8x16,
    y8: u8x16,
    y9: u8x16,
    y10: u8x16,
    y11: u8x16,
    y12: u8x16,
    y13: u8x16,
    y14: u8x16,
    y15: u8x16,
    y16: u8x16,
    y17: u8x16,
    y18: u8x16,
    y19: u8x16,
    y20: u8x16,
    y21: u8x16,
}

// Four planes, the bits of an element of the field of 16.
#[derive(Clone, Copy)]
pub(crate) struct Nibbles {
    a: u8x16,
    b: u8x16,
    c: u8x16,
    d: u8x16,
}

// The products whose sums are the output.
#[derive(Clone, Copy)]
pub(crate) struct Products {
    z0: u8x16,
    z1: u8x16,
    z2: u8x16,
    z3: u8x16,
    z4: u8x16,
    z5: u8x16,
    z6: u8x16,
    z7: u8x16,
    z8: u8x16,
    z9: u8x16,
    z10: u8x16,
    z11: u8x16,
    z12: u8x16,
    z13: u8x16,
    z14: u8x16,
    z15: u8x16,
    z16: u8x16,
    z17: u8x16,
}

// Each byte by its inverse, and then the affine map.
#[inline(always)]
#[tactic(auto, unfolding(crate::specs::AesGcm::VectorBytes::sub_bytes))]
pub(crate) fn sub_bytes(p: Vectors) -> Vectors
    ensures { result ≡ sub_bytes p }
{
    let y = top(p);
    let n = inverse(down_to_16(p.p0, &y));
    bottom(&up_to_256(p.p0, &y, n))
}

// The linear part in front of the inversion.
#[inline(always)]
#[tactic(auto, unfolding(crate::specs::AesGcm::VectorBytes::top))]
fn top(p: Vectors) -> Sums
    ensures { result ≡ top p }
{
    let x0 = p.p7;
    let x1 = p.p6;
    let x2 = p.p5;
    let x3 = p.p4;
    let x4 = p.p3;
    let x5 = p.p2;
    let x6 = p.p1;
    let x7 = p.p0;
    let y14 = x3 ^ x5;
    let y13 = x0 ^ x6;
    let y9 = x0 ^ x3;
    let y8 = x0 ^ x5;
    let t0 = x1 ^ x2;
    let y1 = t0 ^ x7;
    let y4 = y1 ^ x3;
    let y12 = y13 ^ y14;
    let y2 = y1 ^ x0;
    let y5 = y1 ^ x6;
    let y3 = y5 ^ y8;
    let t1 = x4 ^ y12;
    let y15 = t1 ^ x5;
    let y20 = t1 ^ x1;
    let y6 = y15 ^ x7;
    let y10 = y15 ^ t0;
    let y11 = y20 ^ y9;
    let y7 = x7 ^ y11;
    let y17 = y10 ^ y11;
    let y19 = y10 ^ y8;
    let y16 = t0 ^ y11;
    let y21 = y13 ^ y16;
    let y18 = x0 ^ y16;
    Sums {
        y1,
        y2,
        y3,
        y4,
        y5,
        y6,
        y7,
        y8,
        y9,
        y10,
        y11,
        y12,
        y13,
        y14,
        y15,
        y16,
        y17,
        y18,
        y19,
        y20,
        y21,
    }
}

// From the field of 256 elements down to the one of 16.
#[inline(always)]
#[tactic(auto, unfolding(crate::specs::AesGcm::VectorBytes::down_to_16))]
fn down_to_16(x7: u8x16, y: &Sums) -> Nibbles
    ensures { result ≡ down_to_16 x7 y.now }
{
    let y1 = y.y1;
    let y2 = y.y2;
    let y3 = y.y3;
    let y4 = y.y4;
    let y5 = y.y5;
    let y6 = y.y6;
    let y7 = y.y7;
    let y8 = y.y8;
    let y9 = y.y9;
    let y10 = y.y10;
    let y11 = y.y11;
    let y12 = y.y12;
    let y13 = y.y13;
    let y14 = y.y14;
    let y15 = y.y15;
    let y16 = y.y16;
    let y17 = y.y17;
    let y18 = y.y18;
    let y19 = y.y19;
    let y20 = y.y20;
    let y21 = y.y21;
    let t2 = y12 & y15;
    let t3 = y3 & y6;
    let t4 = t3 ^ t2;
    let t5 = y4 & x7;
    let t6 = t5 ^ t2;
    let t7 = y13 & y16;
    let t8 = y5 & y1;
    let t9 = t8 ^ t7;
    let t10 = y2 & y7;
    let t11 = t10 ^ t7;
    let t12 = y9 & y11;
    let t13 = y14 & y17;
    let t14 = t13 ^ t12;
    let t15 = y8 & y10;
    let t16 = t15 ^ t12;
    let t17 = t4 ^ t14;
    let t18 = t6 ^ t16;
    let t19 = t9 ^ t14;
    let t20 = t11 ^ t16;
    let t21 = t17 ^ y20;
    let t22 = t18 ^ y19;
    let t23 = t19 ^ y21;
    let t24 = t20 ^ y18;
    Nibbles {
        a: t21,
        b: t22,
        c: t23,
        d: t24,
    }
}

// Inversion in the field of 16 elements.
#[inline(always)]
#[tactic(auto, unfolding(crate::specs::AesGcm::VectorBytes::inverse))]
fn inverse(n: Nibbles) -> Nibbles
    ensures { result ≡ inverse n }
{
    let t21 = n.a;
    let t22 = n.b;
    let t23 = n.c;
    let t24 = n.d;
    let t25 = t21 ^ t22;
    let t26 = t21 & t23;
    let t27 = t24 ^ t26;
    let t28 = t25 & t27;
    let t29 = t28 ^ t22;
    let t30 = t23 ^ t24;
    let t31 = t22 ^ t26;
    let t32 = t31 & t30;
    let t33 = t32 ^ t24;
    let t34 = t23 ^ t33;
    let t35 = t27 ^ t33;
    let t36 = t24 & t35;
    let t37 = t36 ^ t34;
    let t38 = t27 ^ t36;
    let t39 = t29 & t38;
    let t40 = t25 ^ t39;
    Nibbles {
        a: t29,
        b: t33,
        c: t37,
        d: t40,
    }
}

// Back up to the field of 256 elements.
#[inline(always)]
#[tactic(auto, unfolding(crate::specs::AesGcm::VectorBytes::up_to_256))]
fn up_to_256(x7: u8x16, y: &Sums, n: Nibbles) -> Products
    ensures { result ≡ up_to_256 x7 y.now n }
{
    let y1 = y.y1;
    let y2 = y.y2;
    let y3 = y.y3;
    let y4 = y.y4;
    let y5 = y.y5;
    let y6 = y.y6;
    let y7 = y.y7;
    let y8 = y.y8;
    let y9 = y.y9;
    let y10 = y.y10;
    let y11 = y.y11;
    let y12 = y.y12;
    let y13 = y.y13;
    let y14 = y.y14;
    let y15 = y.y15;
    let y16 = y.y16;
    let y17 = y.y17;
    let t29 = n.a;
    let t33 = n.b;
    let t37 = n.c;
    let t40 = n.d;
    let t41 = t40 ^ t37;
    let t42 = t29 ^ t33;
    let t43 = t29 ^ t40;
    let t44 = t33 ^ t37;
    let t45 = t42 ^ t41;
    let z0 = t44 & y15;
    let z1 = t37 & y6;
    let z2 = t33 & x7;
    let z3 = t43 & y16;
    let z4 = t40 & y1;
    let z5 = t29 & y7;
    let z6 = t42 & y11;
    let z7 = t45 & y17;
    let z8 = t41 & y10;
    let z9 = t44 & y12;
    let z10 = t37 & y3;
    let z11 = t33 & y4;
    let z12 = t43 & y13;
    let z13 = t40 & y5;
    let z14 = t29 & y2;
    let z15 = t42 & y9;
    let z16 = t45 & y14;
    let z17 = t41 & y8;
    Products {
        z0,
        z1,
        z2,
        z3,
        z4,
        z5,
        z6,
        z7,
        z8,
        z9,
        z10,
        z11,
        z12,
        z13,
        z14,
        z15,
        z16,
        z17,
    }
}

// The linear part after it, with the constant 0x63.
#[inline(always)]
#[tactic(auto, unfolding(crate::specs::AesGcm::VectorBytes::bottom))]
fn bottom(z: &Products) -> Vectors
    ensures { result ≡ bottom z.now }
{
    let z0 = z.z0;
    let z1 = z.z1;
    let z2 = z.z2;
    let z3 = z.z3;
    let z4 = z.z4;
    let z5 = z.z5;
    let z6 = z.z6;
    let z7 = z.z7;
    let z8 = z.z8;
    let z9 = z.z9;
    let z10 = z.z10;
    let z11 = z.z11;
    let z12 = z.z12;
    let z13 = z.z13;
    let z14 = z.z14;
    let z15 = z.z15;
    let z16 = z.z16;
    let z17 = z.z17;
    let t46 = z15 ^ z16;
    let t47 = z10 ^ z11;
    let t48 = z5 ^ z13;
    let t49 = z9 ^ z10;
    let t50 = z2 ^ z12;
    let t51 = z2 ^ z5;
    let t52 = z7 ^ z8;
    let t53 = z0 ^ z3;
    let t54 = z6 ^ z7;
    let t55 = z16 ^ z17;
    let t56 = z12 ^ t48;
    let t57 = t50 ^ t53;
    let t58 = z4 ^ t46;
    let t59 = z3 ^ t54;
    let t60 = t46 ^ t57;
    let t61 = z14 ^ t57;
    let t62 = t52 ^ t58;
    let t63 = t49 ^ t58;
    let t64 = z4 ^ t59;
    let t65 = t61 ^ t62;
    let t66 = z1 ^ t63;
    let s0 = t59 ^ t63;
    let s6 = t56 ^ t62 ^ u8x16::splat(255);
    let s7 = t48 ^ t60 ^ u8x16::splat(255);
    let t67 = t64 ^ t65;
    let s3 = t53 ^ t66;
    let s4 = t51 ^ t66;
    let s5 = t47 ^ t65;
    let s1 = t64 ^ s3 ^ u8x16::splat(255);
    let s2 = t55 ^ t67 ^ u8x16::splat(255);
    Vectors {
        p0: s7,
        p1: s6,
        p2: s5,
        p3: s4,
        p4: s3,
        p5: s2,
        p6: s1,
        p7: s0,
    }
}
