//! List comprehensions.

/// A program, and behind `~` the lines of `echo`, and the value of its last variable with the steps, or the fault.
pub(crate) const COMPREHENSIONS: &str = "x=[for(i=0;i<3;i=i+1) i*i]; ~ [0, 1, 4] @40
x=[each [1,2], if(false) 3 else 4]; ~ [1, 2, 4] @14
x=[for(i=[2:0]) i]; ~ [0, 1, 2] @15
x=[for(i=[2:1:0]) i]; ~ [] @7
x=[for(i=[0:1], j=[0:i]) j]; ~ [0, 0, 1] @23
x=[for(c=\"abc\") c]; ~ [\"a\", \"b\", \"c\"] @16
x=[for(c=5) c]; ~ [5] @7
x=[for(c=undef) c]; ~ [] @4
x=[for(c=true) c]; ~ [true] @7
x=[for(c=[[1,2],[3]]) each c]; ~ [1, 2, 3] @26
x=[each \"abc\", each [1:3], each 5, each undef]; ~ [\"a\", \"b\", \"c\", 1, 2, 3, 5] @22
x=[each [[1,2],[3]]]; ~ [[1, 2], [3]] @22
x=[each each [[1,2],[3]]]; ~ [1, 2, 3] @21
x=[each if(true) [1,2]]; ~ [1, 2] @12
x=[for() 1]; ~ fault 7 1:4 for
x=[for(1) 1]; ~ fault 7 1:4 for
x=[for(a=[1],2) 1]; ~ fault 7 1:4 for
x=[for(i=0;i<3;2) 1]; ~ fault 7 1:4 for
x=[for(1;i<3;i=i+1) 1]; ~ fault 7 1:4 for
x=[for(i=0,j=10;i<j;i=i+1,j=j-2) [i,j]]; ~ [[0, 10], [1, 8], [2, 6], [3, 4]] @80
x=[if(1) 2, if(0) 3, if(0) 4 else if(1) 5]; ~ [2, 5] @14
x=[for(i=[0:2]) if(i!=1) i]; ~ [0, 2] @25
x=[for(i=[0:3]) for(j=[i:3]) [i,j]]; ~ [[0, 0], [0, 1], [0, 2], [0, 3], [1, 1], [1, 2], [1, 3], [2, 2], [2, 3], [3, 3]] @116
x=[for(i=[0:-0.5:-2]) i]; ~ [0, -0.5, -1, -1.5, -2] @24
x=[for(i=[0:0.3:1]) i]; ~ [0, 0.3, 0.6, 0.9] @19
x=[for(i=[1000000000:1000000000:1000000000]) i]; ~ [1000000000] @10
x=[for(i=[0:1000000000:1000000000]) i]; ~ [0, 1000000000] @13
x=[for(i=[1:2]) for(k=[1:2]) for(j=0;j<2;j=j+1) [i,k,j]]; ~ [[1, 1, 0], [1, 1, 1], [1, 2, 0], [1, 2, 1], [2, 1, 0], [2, 1, 1], [2, 2, 0], [2, 2, 1]] @184
x=[each [1:3:0]]; ~ [] @7
x=[each [3:1]]; ~ [1, 2, 3] @9
x=[for(i=[]) i]; ~ [] @4
x=[for(i=\"\") i]; ~ [] @4
x=[for(i=[1,2]) [for(j=[1:i]) j]]; ~ [[1], [1, 2]] @34
x=[for(i=[1:3],j=[10,20]) i+j]; ~ [11, 21, 12, 22, 13, 23] @54
x=[for(i=[1:2],j=i) j]; ~ [1, 2] @16
x=[for(i=[1:2],i=[5,6]) i]; ~ [5, 6, 5, 6] @30
x=[for(i=[1,2],j=1/0) i]; ~ fault 8 1:19 
x=[for(i=[]) 1/0]; ~ [] @4
x=[for(i=[],j=1/0) 1]; ~ [] @4
x=[for(i=1/0) 1]; ~ fault 8 1:11 
x=[for(i=[1,2,3]) if(i%2==1) i else -i]; ~ [1, -2, 3] @38
x=[if(true) if(false) 1 else 2]; ~ [2] @8
x=[each undef]; ~ [] @4
x=[each 5, each true]; ~ [5, true] @8
x=[each [[1],[2,3]], each \"xy\"]; ~ [[1], [2, 3], \"x\", \"y\"] @28
x=[each [1:2], each [2:-1:0]]; ~ [1, 2, 2, 1, 0] @17
x=[each for(i=[1,2]) [i,i]]; ~ [1, 1, 2, 2] @25
x=[each each [[[1]]]]; ~ [[1]] @16
x=[for(i=0,s=0;i<4;i=i+1,s=s+i) s]; ~ [0, 1, 3, 6] @56
x=[for(i=3;i;i=i-1) i]; ~ [3, 2, 1] @26
x=[for(i=0;i<2;) each []]; ~ budget 2 1:18
x=[for(i=0;i<3;j=i,i=j+1) [i,j]]; ~ [[0, undef], [1, 0], [2, 1]] @55
x=[for(i=0;1/0;i=1) i]; ~ fault 8 1:13 
x=[for(i=1/0;true;i=1) i]; ~ fault 8 1:11 
x=[for(i=0;i<1;i=1/0) i]; ~ fault 8 1:19 
x=[for(i=0;i<1;i) i]; ~ fault 7 1:4 for
x=[for(a=1,b=2;a<b;a=a+1) for(c=[a:b]) c]; ~ [1, 2] @25
x=[for(a=[0:0.25:1]) a]; ~ [0, 0.25, 0.5, 0.75, 1] @22
x=[for(a=[1:-0.25:0]) a]; ~ [1, 0.75, 0.5, 0.25, 0] @23
x=[for(a=[0:0.4:1]) a]; ~ [0, 0.4, 0.8] @16
x=[for(a=[0:-1:1]) a]; ~ [] @8
x=[for(a=[5:5]) a]; ~ [5] @9
x=[for(a=[5:1:5]) a]; ~ [5] @10
x=[for(a=[5:-1:5]) a]; ~ [5] @11";
