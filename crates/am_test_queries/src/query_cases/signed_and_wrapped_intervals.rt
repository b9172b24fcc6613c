//! Small problems over signed and wrapped intervals.

pub static CASES: &str = "\
2 operation 1 (not x0) domain s-interval start L H depth 2 turns 4 conflicts 100000
rule L (shl A C) 2 f0 (shl (or 3 f0) f1) rule H (ule C B) (ule A B) rule A (or 3 f0) (shl f0 f1) rule B f0
rule C f1 (shl f0 f1)
alone +01/1 -22/1 -30/2
given +21/0 -11/2 -21/3 -20/1
fit 117 1384096133 368 1523397736 nothing
sound 37 671353085 61 1830058314 fails
precise 207 2657426590 500 2447098814 best

3 operation 2 (add x0 x1) domain w-interval start L H depth 1 turns 6 conflicts 100000
rule L 0 f3 rule H f3 (shl f1 f3) (mul f0 f2)
alone +5752/76
given +1163/12 +2174/27 +6242/06 -5036/7
fit 60 2507289764 354 1797026866 nothing
sound 118 96710861 157 3545086780 fails
precise 182 550651283 525 948840824 best

3 operation 1 (slt x0 3) domain s-interval start L H depth 3 turns 3 conflicts 100000
rule L (or B A) rule H 3 (sub f1 (add f1 7)) rule A (slt A A) f1 4 rule B 6
alone -52/6 -63/3
given -03/3
fit 38 2638800106 99 500638507 found
sound 60 1862777026 109 4157945592 holds
precise 145 2202849779 261 4187849319 best

2 operation 2 (ult x0 x1) domain w-interval start L L depth 2 turns 4 conflicts 100000
rule L 0 (ashr A C) (sle B C) (umin C B) rule A f1 rule B 0 rule C f0 f1
alone +1201/20 +2003/31 -1010/0 -2130/3
given +2102/02 +3030/33 -0023/0 -2020/2
fit 144 1998528077 423 3859660762 found
sound 63 204562407 95 3755310534 fails
precise 238 3982087527 569 3979637924 best

2 operation 2 (ule x1 x0) domain s-interval start L H depth 1 turns 1 conflicts 100000
rule L (ite 2 3 f0) 2 (udiv 2 1) rule H 1
alone -2200/2
given -0131/2
fit 12 3804711035 57 1723816449 found
sound 51 3869307382 87 4273467854 holds
precise 49 2016617774 155 1200819998 best

2 operation 3 (mul (eq x0 x2) x1) assume (xor x2 x0) domain w-interval start L H depth 2 turns 6 conflicts 100000
rule L 0 rule H (udiv B B) (udiv A D) (not C) rule A f1 rule B (sub f3 0) f4 rule C f4 rule D f5
alone -003010/1
given -023131/2 -000032/2 -313002/1
fit 109 2980731685 318 2179415998 nothing
sound 106 1150903633 158 3467431348 holds
precise 225 3775759307 490 3038511688 best

2 operation 2 (udiv x1 (not x0)) assume (slt 2 x0) domain s-interval start L H depth 2 turns 6 conflicts 100000
rule L (neg B) (smin B A) rule H (sle A B) (sle B A) (sle B B) rule A f2 f1 rule B (ule 0 f3) f1 f2
alone +2000/30 +0021/03 -2011/1
given +2301/31 +3101/00 +0130/13
fit 135 1591366216 339 2539020226 found
sound 83 4056848099 127 2022267929 holds
precise 252 3598407380 505 2858496636 better

3 operation 1 (xor 7 x0) domain w-interval start L H depth 3 turns 3 conflicts 100000
rule L 0 (umin C A) rule H (slt A B) 7 (smax B A) rule A f1 f0 rule B (not C) 2 (umax D C) rule C f0 rule D (neg C)
alone +20/3 +21/6 -16/2
given +34/4 -45/0 -43/5
fit 244 4294149109 482 3336676350 nothing
sound 61 2036774571 97 1613875470 fails
precise 407 3884511949 698 1825796148 best

3 operation 1 (umin 1 x0) domain s-interval start L H depth 1 turns 5 conflicts 100000
rule L (shl f0 6) 4 rule H (shl f0 (sle f0 f0)) (sle f0 f1) f1
alone +47/6 -73/7
given
fit 6 3723379015 6 3723379015 found
sound 60 216235260 100 3028072785 holds
precise 74 3192007986 144 2641981350 better

3 operation 2 (ite x1 x0 x0) assume x0 domain w-interval start L H depth 3 turns 4 conflicts 100000
rule L (lshr B A) (umin A B) (slt A B) rule H 7 rule A f3 4 f2 1 rule B (ult A A) f3
alone +4267/67 -5115/2
given +0253/10 +0624/13 +1002/12 +1046/34
fit 454 2523974995 729 2164353798 found
sound 94 149228407 136 1867872730 fails
precise 649 2261709739 966 1405770056 better

2 operation 1 (urem x0 (add 1 x0)) domain s-interval start L H depth 1 turns 7 conflicts 100000
rule L (sub f0 0) (neg f0) 2 rule H (umin f1 f1) f0 (sle f1 f0) (ult 0 f1)
alone -21/3 -11/3
given +20/3 +21/1 -00/3 -31/2
fit 41 2905393021 256 4060650831 found
sound 54 1166915647 83 307209447 fails
precise 104 1213896161 354 2254799135 better

2 operation 2 (mul 1 (eq x1 x0)) domain w-interval start L H depth 2 turns 2 conflicts 100000
rule L 0 rule H (not A) (lshr A A) f0 (or A B) rule A (or f3 3) f0 (umin f0 3) (shl 3 1) rule B f2
alone +3132/00 -2311/2
given -2113/2
fit 46 2522046227 97 1207500699 found
sound 50 3278270954 100 3683525585 holds
precise 108 735337825 217 1900520503 better";
